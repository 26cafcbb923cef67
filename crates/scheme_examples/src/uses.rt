// The generic code, used at each scheme: what it promises of any one is enough to know each of them exactly.
ghost use Rattle.std.specs.Prelude.{◌≡◌, true, [], ◌∷◌, if◌then◌else◌, Some, None, nat_eq};
ghost use Rattle.marks.specs.Meaning.{Along};
ghost use Rattle.marks.specs.Meaning.Order.{release, reserve, revoke};
ghost use Rattle.marks.specs.Marks.{numbered};
ghost use Rattle.schemes.specs.Full.{full_state, full_act, full_get};
ghost use Rattle.schemes.specs.Owner.{owner_state, owner_act};
ghost use Rattle.schemes.specs.Version.{version_state, version_act};
ghost use Rattle.schemes.specs.Pair.{uses_second};
ghost use Rattle.scheme_examples.specs.Nested.{nested_acts};

use crate::generic::{mark_beside_another, move_mark, reserve_and_revoke};
use basis::bounded::{BankBit, Place, Seat};
use schemes::full::Full;
use schemes::owner::Owner;
use schemes::pair::Pair;
use schemes::version::Version;

/// A pair of a pair, over three schemes of different make.
pub type Nested = Pair<Pair<Full, Owner>, Version>;

/// A pair of a pair, over full schemes.
pub type StrictNested = Pair<Full, Pair<Full, Full>>;

/// A place that is revoked as soon as it is marked: no mark, at each of the schemes.
pub fn revoked_at_each(
    start: u32,
    bit: BankBit,
    nested: &mut Nested,
    t: Seat,
    p: Place,
) -> [Option<Place>; 5]
    ensures answer { result ≡ None ∷ (None ∷ (None ∷ (None ∷ (None ∷ [])))) }
    ensures acts { Along nested_acts (reserve t.number p.number ∷ (revoke p.number ∷ [])) nested.old nested.new }
{
    let mut full = Full::new();
    let mut owner = Owner::new();
    let mut version = Version::new(start);
    let mut pair = Pair::new(Full::new(), Owner::new(), bit);
    [
        reserve_and_revoke(&mut full, t, p),
        reserve_and_revoke(&mut owner, t, p),
        reserve_and_revoke(&mut version, t, p),
        reserve_and_revoke(&mut pair, t, p),
        reserve_and_revoke(nested, t, p),
    ]
}

/// A function for each scheme, though each only calls the generic one: its clause says what the generic promise comes to at that scheme, in the
/// words of that scheme.
pub fn move_in_full(full: &mut Full, t: Seat, p: Place)
    ensures { full_state full.new ≡ full_act (reserve t.number p.number)
        (full_act (release t.number) (full_state full.old)) }
{
    move_mark(full, t, p);
}

pub fn move_in_owner(owner: &mut Owner, t: Seat, p: Place)
    ensures { owner_state owner.new ≡ owner_act (reserve t.number p.number)
        (owner_act (release t.number) (owner_state owner.old)) }
{
    move_mark(owner, t, p);
}

pub fn move_in_version(version: &mut Version, t: Seat, p: Place)
    ensures { version_state version.new.kept ≡ version_act (reserve t.number p.number)
        (version_act (release t.number) (version_state version.old.kept)) }
{
    move_mark(version, t, p);
}

/// In a pair of pairs: both orders are carried out, and what they make of the bank that the seat does not use is nothing.
pub fn move_in_nested(nested: &mut Nested, t: Seat, p: Place)
    ensures other { uses_second nested.old.bit.number t.number ≡ true → nested.new.first ≡ nested.old.first }
    ensures acts { Along nested_acts (release t.number ∷ (reserve t.number p.number ∷ [])) nested.old nested.new }
{
    move_mark(nested, t, p);
}

pub fn beside_another_in_full(full: &mut Full, t: Seat, u: Seat, p: Place) -> Option<Place>
    ensures answer { numbered result ≡
        (if nat_eq t.number u.number then Some p.number else full_get (full_state full.old) t.number) }
    ensures acts { full_state full.new ≡ full_act (reserve u.number p.number) (full_state full.old) }
{
    mark_beside_another(full, t, u, p)
}

/// The marks of a strict pair of pairs, just made.
pub fn beside_another_in_nested(
    outer: BankBit,
    inner: BankBit,
    t: Seat,
    u: Seat,
    p: Place,
) -> Option<Place>
    ensures { numbered result ≡ (if nat_eq t.number u.number then Some p.number else None) }
{
    let pair = Pair::new(Full::new(), Full::new(), inner);
    let mut scheme: StrictNested = Pair::new(Full::new(), pair, outer);
    mark_beside_another(&mut scheme, t, u, p)
}
