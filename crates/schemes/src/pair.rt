// Two schemes side by side, each for the seats of one bank. It is strict if both are.
ghost use Rattle.std.specs.Prelude.{◌≡◌, ◌&&◌};
ghost use Rattle.schemes.specs.Pair.{uses_second, banked, paired, pair_table, pair_acts};

use basis::bounded::{BankBit, Place, Seat};
use marks::scheme::{Scheme, Strict};

/// Seats in whose number that bit is 0 use the first scheme, the others the second.
#[derive(Drop)]
pub struct Pair<F, S> {
    first: F,
    second: S,
    bit: BankBit,
}

// Whether seat t uses the second scheme.
fn uses_second(bit: BankBit, t: Seat) -> bool
    ensures { result ≡ uses_second bit.number t.number }
{
    (t.number() >> bit.number()) % 2 == 1
}

impl<F: Scheme, S: Scheme> Pair<F, S> {
    /// The two schemes as they are.
    pub fn new(first: F, second: S, bit: BankBit) -> Pair<F, S>
        ensures table { pair_table F.Scheme.table S.Scheme.table result ≡
            banked bit.number (F.Scheme.table first) (S.Scheme.table second) }
        ensures exact { result ≡ paired first second bit }
    {
        Pair { first, second, bit }
    }
}

// The bank is chosen in each method anew: the two are of two types, and one reference to either would have to be a `dyn`, which no
// plain `if` needs.
impl<F: Scheme, S: Scheme> Scheme for Pair<F, S> {
    ghost table = { pair_table F.Scheme.table S.Scheme.table };

    ghost strict = { F.Scheme.strict && S.Scheme.strict };

    ghost acts = { pair_acts F.Scheme.acts S.Scheme.acts };

    fn reserve(&mut self, t: Seat, p: Place) {
        if uses_second(self.bit, t) {
            self.second.reserve(t, p);
        } else {
            self.first.reserve(t, p);
        }
    }

    fn release(&mut self, t: Seat) {
        if uses_second(self.bit, t) {
            self.second.release(t);
        } else {
            self.first.release(t);
        }
    }

    fn revoke(&mut self, p: Place) {
        self.first.revoke(p);
        self.second.revoke(p);
    }

    fn get(&self, t: Seat) -> Option<Place> {
        if uses_second(self.bit, t) {
            self.second.get(t)
        } else {
            self.first.get(t)
        }
    }
}

impl<F: Strict, S: Strict> Strict for Pair<F, S> {
    fn is_strict() -> bool {
        F::is_strict() && S::is_strict()
    }
}
