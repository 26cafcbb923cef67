// The link that a cell keeps.
ghost use Rattle.std.specs.Prelude.{◌≡◌, ◌≤◌};
ghost use Rattle.marks.specs.Marks.{numbered};
ghost use Rattle.list_cells.specs.Links.{place_named};

use basis::bounded::Place;

// The number of no place, which stands for the end of a chain.
const END: u16 = 1008;

/// A place or the end, in the two bytes of a number, so that a cell with a sector takes eight. One number alone stands for the end.
#[derive(Clone, Copy, PartialEq, Eq, Debug)]
pub struct Link {
    number: u16,
    ghost ok: { number ≤ 1008 },
}

// The link to a place, or the end.
impl From<Option<Place>> for Link {
    ghost from_gives = { λ place link. place_named link.number ≡ numbered place };

    #[tactic(auto, using(crate::proofs::Links::named_there, crate::proofs::Links::named_end))]
    fn from(place: Option<Place>) -> Link {
        match place {
            None => Link { number: END },
            Some(place) => Link {
                number: place.number(),
            },
        }
    }
}

impl Link {
    /// The place that this link leads to, if it is not the end.
    #[tactic(auto, using(crate::proofs::Links::named_there, crate::proofs::Links::named_end))]
    pub fn place(self) -> Option<Place>
        ensures { numbered result ≡ place_named self.number }
    {
        Place::try_from(self.number).ok()
    }
}
