// The worked examples of schemes and keys on the code that runs. A run takes its seats, places and keys, and promises of any of them
// what it leads to; an example is a run at given numbers.
ghost use Rattle.std.specs.Prelude.{◌≡◌, true, None, Ok, IsOkAnd};
ghost use Rattle.key_types.specs.Wear.{wear, wear_below};
ghost use Rattle.marks.specs.Marks.{numbered};
ghost use Rattle.marks.specs.Meaning.Order.{reserve, revoke};
ghost use Rattle.schemes.specs.Owner.{owner_state, owner_new, owner_act, owner_get};
ghost use Rattle.schemes.specs.Spread.{slot};
ghost use Rattle.schemes.specs.Version.{version_state, version_new, version_act, version_get};

use basis::bounded::{Place, Seat};
use basis::refusal::Refusal;
use key_types::wear::Wear;
use keys::key::Key;
use marks::scheme::Scheme;
use schemes::owner::Owner;
use schemes::spread::slot_of;
use schemes::version::Version;

/// Places 0 and 16 share a slot: seat 0 marks the one, seat 1 the other and so takes the slot, and seat 0 has no mark left.
pub fn owner_loses_its_slot() -> Result<(Owner, Option<Place>), Refusal>
    ensures scheme { IsOkAnd result
        (λ r. owner_state r.0 ≡ owner_act (reserve 1 16) (owner_act (reserve 0 0) owner_new)) }
    ensures answer { IsOkAnd result (λ r. r.1 ≡ None) }
{
    let seat = Seat::try_from(0)?;
    let other = Seat::try_from(1)?;
    let place = Place::try_from(0)?;
    let other_place = Place::try_from(16)?;
    Ok(run_owner(seat, place, other, other_place))
}

// Seat t marks p, seat u marks q, and t asks.
fn run_owner(t: Seat, p: Place, u: Seat, q: Place) -> (Owner, Option<Place>)
    ensures scheme { owner_state result.0 ≡ owner_act (reserve u.number q.number)
        (owner_act (reserve t.number p.number) owner_new) }
    ensures answer { numbered result.1 ≡ owner_get (owner_state result.0) t.number }
{
    let mut scheme = Owner::new();
    scheme.reserve(t, p);
    scheme.reserve(u, q);
    let mark = scheme.get(t);
    (scheme, mark)
}

/// With every counter at its last number a mark on place 1 does not outlive a revoke of 17, whose slot it shares.
pub fn version_starts_again() -> Result<(Version, Option<Place>), Refusal>
    ensures scheme { IsOkAnd result (λ r. version_state r.0.kept ≡
        version_act (revoke 17) (version_act (reserve 0 1) (version_new 4294967295))) }
    ensures answer { IsOkAnd result (λ r. r.1 ≡ None) }
{
    let seat = Seat::try_from(0)?;
    let place = Place::try_from(1)?;
    let revoked = Place::try_from(17)?;
    Ok(run_version(4_294_967_295, seat, place, revoked))
}

// Counters at `start`; seat t marks p, q is revoked, and t asks.
fn run_version(start: u32, t: Seat, p: Place, q: Place) -> (Version, Option<Place>)
    ensures scheme { version_state result.0.kept ≡
        version_act (revoke q.number) (version_act (reserve t.number p.number) (version_new start)) }
    ensures answer { numbered result.1 ≡ version_get (version_state result.0.kept) t.number }
{
    let mut scheme = Version::new(start);
    scheme.reserve(t, p);
    scheme.revoke(q);
    let mark = scheme.get(t);
    (scheme, mark)
}

/// Two places sixteen apart share slot 5.
#[tactic(auto, unfolding(schemes::specs::Spread::slot))]
pub fn slots_of_3_and_19() -> Result<(usize, usize), Refusal>
    ensures answer { result ≡ Ok (5, 5) }
    ensures slots { result ≡ Ok (slot 3, slot 19) }
{
    let low = Place::try_from(3)?;
    let high = Place::try_from(19)?;
    Ok(slots_of(low, high))
}

fn slots_of(p: Place, q: Place) -> (usize, usize)
    ensures { result ≡ (slot p.number, slot q.number) }
{
    (slot_of(p), slot_of(q))
}

/// A smaller count decides, whatever the blocks. Beside the answer the two keys that were compared.
pub fn counts_decide_first() -> Result<(Wear, Wear, bool), Refusal>
    ensures keys { IsOkAnd result (λ r. (r.0 ≡ wear 2874 65535) × (r.1 ≡ wear 2875 0)) }
    ensures answer { IsOkAnd result (λ r. r.2 ≡ wear_below (wear 2874 65535) (wear 2875 0)) }
    ensures below { IsOkAnd result (λ r. r.2 ≡ true) }
{
    let less = Wear::new(2874, 65535)?;
    let more = Wear::new(2875, 0)?;
    Ok((less, more, compare(less, more)))
}

fn compare(x: Wear, y: Wear) -> bool
    ensures { result ≡ wear_below x y }
{
    x.is_below(y)
}
