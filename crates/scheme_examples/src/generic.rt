// Code over any scheme, and over any strict one, proved once from what a scheme means.
ghost use Rattle.std.specs.Prelude.{◌≡◌, [], ◌∷◌, if◌then◌else◌, Some, None, nat_eq};
ghost use Rattle.marks.specs.Meaning.{Means, Along};
ghost use Rattle.marks.specs.Meaning.Order.{release, reserve, revoke};
ghost use Rattle.marks.specs.Marks.{numbered};

use basis::bounded::{Place, Seat};
use marks::scheme::{Scheme, Strict};

/// Seat t marks place p, the place is revoked at once, and t asks: its mark is gone, whatever the scheme.
pub fn reserve_and_revoke<S: Scheme>(scheme: &mut S, t: Seat, p: Place) -> Option<Place>
    ensures answer { result ≡ None }
    ensures acts { Along S.Scheme.acts (reserve t.number p.number ∷ (revoke p.number ∷ [])) scheme.old scheme.new }
{
    scheme.reserve(t, p);
    scheme.revoke(p);
    scheme.get(t)
}

/// Seat t lets its mark go and marks place p: the two orders together mean what the second means.
pub fn move_mark<S: Scheme>(scheme: &mut S, t: Seat, p: Place)
    ensures means { Means S.Scheme.strict (reserve t.number p.number) (S.Scheme.table scheme.old)
        (S.Scheme.table scheme.new) }
    ensures acts { Along S.Scheme.acts (release t.number ∷ (reserve t.number p.number ∷ [])) scheme.old scheme.new }
{
    scheme.release(t);
    scheme.reserve(t, p);
}

/// Seat u marks place p and seat t asks: on a strict scheme its mark is the one that it had, unless it is u itself.
pub fn mark_beside_another<S: Strict>(scheme: &mut S, t: Seat, u: Seat, p: Place) -> Option<Place>
    ensures answer { numbered result ≡
        (if nat_eq t.number u.number then Some p.number else S.Scheme.table scheme.old t.number) }
    ensures acts { S.Scheme.acts (reserve u.number p.number) scheme.old scheme.new }
{
    let _ = S::is_strict();
    scheme.reserve(u, p);
    scheme.get(t)
}
