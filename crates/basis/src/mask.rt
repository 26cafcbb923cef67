// The interrupt mask, and the guard that raises it for as long as it lives.
ghost use Rattle.std.specs.Prelude.{◌≡◌, max};

/// The interrupt level in force. At level 7 no other task runs.
#[derive(Clone, Copy, PartialEq, Eq, Debug)]
pub struct Mask {
    pub level: u8,
}

/// Holds the mask at level 7 or above, and puts the level that stood before back when it is dropped.
pub struct Guard<'a> {
    mask: &'a mut Mask,
    saved: u8,
}

impl<'a> Guard<'a> {
    /// Raises the mask to level 7; a level above stays, so that no interrupt is opened that was masked before.
    pub fn raise(mask: &'a mut Mask) -> Guard<'a>
        ensures same { result.mask.ghost_name ≡ mask.entry.ghost_name }
        ensures level { result.mask.now.level ≡ max 7 mask.old.level }
        ensures saved { result.saved ≡ mask.old.level }
    {
        let saved = mask.level;
        mask.level = saved.max(7);
        Guard { mask, saved }
    }

    /// The level in force while the guard lives.
    pub fn level(&self) -> u8
        ensures { result ≡ self.now.mask.now.level }
    {
        self.mask.level
    }
}

impl Drop for Guard<'_> {
    fn drop(self)
        ensures { self.exit.0.now.level ≡ self.entry.saved }
    {
        self.mask.level = self.saved;
        let Guard { mask: _, saved: _ } = self;
    }
}
