// Sectors as keys.
ghost use Rattle.std.specs.Prelude.{◌≡◌};
ghost use Rattle.key_types.specs.Sector.{sector_below};
ghost use Rattle.std.proofs.Common.{rules};

use keys::key::Key;

/// A logical sector of the card, by its 32-bit number.
#[derive(Clone, Copy, PartialEq, Eq, PartialOrd, Ord, Debug)]
pub struct Sector {
    pub number: u32,
}

// Sectors are in order of their numbers.
impl Key for Sector {
    ghost below = { sector_below };

    ghost order = { record {
      irreflexive = Prim.search rules;
      transitive = Prim.search rules;
      same_transitive = Prim.search rules;
    } };

    fn is_below(self, other: Sector) -> bool {
        self < other
    }
}
