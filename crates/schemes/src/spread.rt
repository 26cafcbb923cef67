// The spread: the slot that stands for a place in the schemes that keep something for each slot.
ghost use Rattle.std.specs.Prelude.{◌≡◌, ◌<◌, slice_index};
ghost use Rattle.schemes.specs.Spread.{entries, slot};

use basis::bounded::Place;

const SPREAD: [u8; 16] = [0, 7, 14, 5, 12, 3, 10, 1, 8, 15, 6, 13, 4, 11, 2, 9];

fn spread_entry(n: usize) -> u8
    requires { n < 16 }
    ensures { result ≡ slice_index entries n }
{
    SPREAD[n]
}

/// The slot of place p, one of sixteen. Places with the same slot share what is kept there.
pub fn slot_of(p: Place) -> usize
    ensures value { result ≡ slot p.number }
    ensures below { result < 16 }
{
    spread_entry(p.index() % 16) as usize
}
