// What a scheme of marks is: the orders that it takes, what they mean, and what it then answers.
ghost use Rattle.std.specs.Prelude.{◌≡◌, Bool, true};
ghost use Rattle.marks.specs.Meaning.{Table, Order, Means};
ghost use Rattle.marks.specs.Meaning.Order.{release, reserve, revoke};
ghost use Rattle.marks.specs.Marks.{numbered};

use basis::bounded::{Place, Seat};

/// A way to keep the marks of sixteen seats. `table` is what it means, `strict` whether it drops no mark but those that an
/// order speaks of, and `acts` what exactly each order makes of it.
pub trait Scheme {
    ghost table: { Self → Table };

    ghost strict: { Bool };

    ghost acts: { Order → Self → Self → Type 0 };

    /// Seat t marks place p, in place of any former mark.
    fn reserve(&mut self, t: Seat, p: Place)
        ensures means { Means strict (reserve t.number p.number) (table self.old) (table self.new) }
        ensures acts { acts (reserve t.number p.number) self.old self.new };

    /// Seat t lets its mark go.
    fn release(&mut self, t: Seat)
        ensures means { Means strict (release t.number) (table self.old) (table self.new) }
        ensures acts { acts (release t.number) self.old self.new };

    /// Every mark on place p is struck.
    fn revoke(&mut self, p: Place)
        ensures means { Means strict (revoke p.number) (table self.old) (table self.new) }
        ensures acts { acts (revoke p.number) self.old self.new };

    /// The mark of seat t.
    fn get(&self, t: Seat) -> Option<Place>
        ensures answer { numbered result ≡ table self.now t.number };
}

/// A scheme that is strict, for code that is only right on such a one.
pub trait Strict: Scheme {
    fn is_strict() -> bool
        ensures { (result ≡ true) × (Self.Scheme.strict ≡ true) };
}
