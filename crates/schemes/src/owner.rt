// The owner scheme: a mark for each seat, good as long as the seat owns the slot of the marked place. It is relaxed: a
// reserve takes the slot from whoever owned it.
ghost use Rattle.std.specs.Prelude.{◌≡◌, false};
ghost use Rattle.marks.specs.Carried.{ActsBy};
ghost use Rattle.marks.specs.Marks.{Unmarked};
ghost use Rattle.schemes.specs.Owner.{owner_state, owner_new, owner_act, owner_get};

use crate::spread::slot_of;
use basis::bounded::{Place, Seat};
use marks::scheme::Scheme;

/// The place that each seat has marked, or none, and the seat that owns each slot, or nobody.
#[derive(Drop)]
pub struct Owner {
    marks: [Option<Place>; 16],
    owners: [Option<Seat>; 16],
}

impl Owner {
    /// No seat has a mark, and nobody owns a slot.
    pub fn new() -> Owner
        ensures table { Unmarked (owner_get (owner_state result)) }
        ensures exact { owner_state result ≡ owner_new }
    {
        Owner {
            marks: [None; 16],
            owners: [None; 16],
        }
    }
}

impl Scheme for Owner {
    ghost table = { λ s. owner_get (owner_state s) };

    ghost strict = { false };

    ghost acts = { ActsBy owner_state owner_act };

    // Writes the mark, and makes seat t the owner of its slot.
    fn reserve(&mut self, t: Seat, p: Place) {
        self.marks[t.index()] = Some(p);
        self.owners[slot_of(p)] = Some(t);
    }

    // Clears the mark alone: the slot stays the seat's own.
    fn release(&mut self, t: Seat) {
        self.marks[t.index()] = None;
    }

    // Nobody owns the slot of place p.
    fn revoke(&mut self, p: Place) {
        self.owners[slot_of(p)] = None;
    }

    // The mark, if there is one and seat t owns its slot.
    fn get(&self, t: Seat) -> Option<Place> {
        let place = self.marks[t.index()]?;
        if self.owners[slot_of(place)] == Some(t) {
            Some(place)
        } else {
            None
        }
    }
}
