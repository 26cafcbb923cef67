// Wear keys: how often a block was erased, and which block it is.
ghost use Rattle.std.specs.Prelude.{◌≡◌, ◌<◌, ◌≤◌, MatchResult};
ghost use Rattle.basis.specs.Refusals.{refusal};
ghost use Rattle.key_types.specs.Wear.{wear_below, wear};
ghost use Rattle.std.proofs.Common.{rules};

use basis::refusal::Refusal;
use keys::key::Key;

/// An erase count and the block's number. A plain record: the order's laws hold of every one. `new` alone makes one, so every
/// key of a program has a count that a block can have.
#[derive(Clone, Copy, PartialEq, Eq, PartialOrd, Ord, Debug)]
pub struct Wear {
    count: u16,
    block: u16,
}

impl Wear {
    /// The key of a block erased `count` times, or the refusal of a count past 2,875, which no block survives.
    pub fn new(count: u16, block: u16) -> Result<Wear, Refusal>
        ensures { MatchResult result
            (λ w. (count ≤ 2875) × (w ≡ wear count block))
            (λ e. (2875 < count) × ((refusal e).number ≡ 1)) }
    {
        if count <= 2875 {
            Ok(Wear { count, block })
        } else {
            Err(Refusal::OutOfRange)
        }
    }

    /// How often the block was erased.
    pub fn count(self) -> u16
        ensures { result ≡ self.count }
    {
        self.count
    }

    /// The number of the block.
    pub fn block(self) -> u16
        ensures { result ≡ self.block }
    {
        self.block
    }
}

// Counts decide first, then blocks, as the fields stand.
impl Key for Wear {
    ghost below = { wear_below };

    ghost order = { record {
      irreflexive = Prim.search rules;
      transitive = Prim.search rules;
      same_transitive = Prim.search rules;
    } };

    fn is_below(self, other: Wear) -> bool {
        self < other
    }
}
