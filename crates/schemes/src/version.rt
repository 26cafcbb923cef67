// The version scheme: a counter for each slot, and marks that are good as long as the counter is the one they keep. It is
// relaxed: a revoke drops every mark of the slot.
ghost use Rattle.std.specs.Prelude.{◌≡◌, ◌+◌, ◌<◌, false, slice_index, slice_set};
ghost use Rattle.std.specs.Option.{option_map};
ghost use Rattle.marks.specs.Carried.{ActsBy};
ghost use Rattle.marks.specs.Marks.{Unmarked};
ghost use Rattle.schemes.specs.Clearing.{cleared};
ghost use Rattle.schemes.specs.Spread.{Sixteens};
ghost use Rattle.schemes.specs.Version.{NoneAhead, dated_of, kept_in, version_state, version_new, version_revoke, version_act, version_get};

use crate::spread::slot_of;
use basis::bounded::{Place, Seat};
use marks::scheme::Scheme;

/// A mark, and the counter of its place's slot when it was made.
#[derive(Clone, Copy, PartialEq, Eq, Debug)]
pub struct Stamped {
    place: Place,
    counter: u32,
}

/// The mark of each seat, or none, and the counter of each slot.
#[derive(Drop)]
pub struct Stamps {
    marks: [Option<Stamped>; 16],
    counters: [u32; 16],
}

/// The same, with no mark that a counter could bring back.
#[derive(Drop)]
pub struct Version {
    kept: Stamps,
    ghost none_ahead: { NoneAhead (version_state kept) },
}

impl Version {
    /// No seat has a mark, and all counters are `start`.
    pub fn new(start: u32) -> Version
        ensures table { Unmarked (version_get (version_state result.kept)) }
        ensures exact { version_state result.kept ≡ version_new start }
    {
        Version {
            kept: Stamps {
                marks: [None; 16],
                counters: [start; 16],
            },
        }
    }
}

// Each of these says that both arrays have sixteen entries, and no invariant does: an array's length is no fact to a caller before an element of it
// is read.
impl Stamps {
    // The counter of that slot goes one up.
    fn raise(&mut self, slot: usize)
        requires { (slot < 16) × (slice_index self.old.counters slot < 4294967295) }
        ensures sixteen { Sixteens self.old.marks self.old.counters }
        ensures marks { self.new.marks ≡ self.old.marks }
        ensures counters { self.new.counters ≡
            slice_set self.old.counters slot (slice_index self.old.counters slot + 1) }
    {
        self.counters[slot] += 1;
    }

    // The counter of that slot goes to 0, and all marks kept in the slot are cleared.
    fn restart(&mut self, slot: usize)
        requires { slot < 16 }
        ensures sixteen { Sixteens self.old.marks self.old.counters }
        ensures marks { self.new.marks ≡ cleared (λ m. kept_in slot (option_map dated_of m)) self.old.marks }
        ensures counters { self.new.counters ≡ slice_set self.old.counters slot 0 }
    {
        self.counters[slot] = 0;
        for mark in self.marks.iter_mut() {
            if mark.is_some_and(|m| slot_of(m.place) == slot) {
                *mark = None;
            }
        }
    }

    // One more revoke of place p is counted.
    fn count_revoke(&mut self, p: Place)
        ensures sixteen { Sixteens self.old.marks self.old.counters }
        ensures exact { version_state self.new ≡ version_revoke (version_state self.old) p.number }
    {
        let slot = slot_of(p);
        if self.counters[slot] == 4_294_967_295 {
            self.restart(slot);
        } else {
            self.raise(slot);
        }
    }
}

impl Scheme for Version {
    ghost table = { λ s. version_get (version_state s.kept) };

    ghost strict = { false };

    ghost acts = { ActsBy (λ s. version_state s.kept) version_act };

    // Writes the mark, with the counter of its slot.
    fn reserve(&mut self, t: Seat, p: Place) {
        let counter = self.kept.counters[slot_of(p)];
        self.kept.marks[t.index()] = Some(Stamped { place: p, counter });
    }

    fn release(&mut self, t: Seat) {
        self.kept.marks[t.index()] = None;
    }

    fn revoke(&mut self, p: Place) {
        self.kept.count_revoke(p);
    }

    // The mark, if there is one and the counter of its slot is still the one it keeps.
    fn get(&self, t: Seat) -> Option<Place> {
        let mark = self.kept.marks[t.index()]?;
        if self.kept.counters[slot_of(mark.place)] == mark.counter {
            Some(mark.place)
        } else {
            None
        }
    }
}
