// The full scheme: a mark for each seat, and a revoke that looks at all of them. It is strict.
ghost use Rattle.std.specs.Prelude.{◌≡◌, true};
ghost use Rattle.marks.specs.Carried.{ActsBy};
ghost use Rattle.marks.specs.Marks.{Unmarked};
ghost use Rattle.schemes.specs.Full.{full_state, full_new, full_act, full_get};

use basis::bounded::{Place, Seat};
use marks::scheme::{Scheme, Strict};

/// The place that each seat has marked, or none.
#[derive(Drop)]
pub struct Full {
    marks: [Option<Place>; 16],
}

impl Full {
    /// No seat has a mark.
    pub fn new() -> Full
        ensures table { Unmarked (full_get (full_state result)) }
        ensures exact { full_state result ≡ full_new }
    {
        Full { marks: [None; 16] }
    }
}

impl Scheme for Full {
    ghost table = { λ s. full_get (full_state s) };

    ghost strict = { true };

    ghost acts = { ActsBy full_state full_act };

    fn reserve(&mut self, t: Seat, p: Place) {
        self.marks[t.index()] = Some(p);
    }

    fn release(&mut self, t: Seat) {
        self.marks[t.index()] = None;
    }

    // Goes through all sixteen marks, and clears each that stands on place p.
    fn revoke(&mut self, p: Place) {
        for mark in self.marks.iter_mut() {
            if *mark == Some(p) {
                *mark = None;
            }
        }
    }

    fn get(&self, t: Seat) -> Option<Place> {
        self.marks[t.index()]
    }
}

impl Strict for Full {
    fn is_strict() -> bool {
        true
    }
}
