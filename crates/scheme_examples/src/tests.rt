// The worked examples run, and each scheme at its edges: shared slots, the last counter, banks that do not meet.
use crate::examples::{
    counts_decide_first, owner_loses_its_slot, slots_of_3_and_19, version_starts_again,
};
use crate::uses::{beside_another_in_nested, revoked_at_each};
use basis::bounded::{BankBit, Place, Seat};
use marks::scheme::Scheme;
use schemes::full::Full;
use schemes::owner::Owner;
use schemes::pair::Pair;
use schemes::version::Version;
use std::test::Fail;

#[test]
fn examples_run(rt: HostRuntime) -> Result<(), Fail> {
    let (owner, lost) = owner_loses_its_slot()?;
    assert_eq!(rt; lost, None);
    assert_eq!(rt; owner.get(Seat::try_from(1)?), Some(Place::try_from(16)?));
    let (_, outdated) = version_starts_again()?;
    assert_eq!(rt; outdated, None);
    assert_eq!(rt; slots_of_3_and_19()?, (5, 5));
    let (less, more, below) = counts_decide_first()?;
    assert!(rt; below);
    assert_eq!(rt; (less.count(), less.block()), (2874, 65535));
    assert_eq!(rt; (more.count(), more.block()), (2875, 0));
    Ok(())
}

// Places 4 and 20 share a slot.
#[test]
fn full_strikes_only_the_place(rt: HostRuntime) -> Result<(), Fail> {
    let first = Seat::try_from(0)?;
    let last = Seat::try_from(15)?;
    let mut scheme = Full::new();
    scheme.reserve(first, Place::try_from(4)?);
    scheme.reserve(last, Place::try_from(20)?);
    scheme.revoke(Place::try_from(20)?);
    assert_eq!(rt; scheme.get(first), Some(Place::try_from(4)?));
    assert_eq!(rt; scheme.get(last), None);
    Ok(())
}

#[test]
fn owner_keeps_its_slot_after_a_release(rt: HostRuntime) -> Result<(), Fail> {
    let seat = Seat::try_from(3)?;
    let other = Seat::try_from(4)?;
    let mut scheme = Owner::new();
    scheme.reserve(seat, Place::try_from(4)?);
    scheme.reserve(other, Place::try_from(5)?);
    scheme.release(seat);
    assert_eq!(rt; scheme.get(seat), None);
    assert_eq!(rt; scheme.get(other), Some(Place::try_from(5)?));
    Ok(())
}

// The counter of a slot passes its last number: its old mark stays gone, a new one is good, and another slot's mark stands.
#[test]
fn version_drops_the_slot_and_no_other(rt: HostRuntime) -> Result<(), Fail> {
    let seat = Seat::try_from(1)?;
    let other = Seat::try_from(2)?;
    let mut scheme = Version::new(4_294_967_294);
    scheme.reserve(seat, Place::try_from(6)?);
    scheme.reserve(other, Place::try_from(7)?);
    scheme.revoke(Place::try_from(22)?);
    assert_eq!(rt; scheme.get(seat), None);
    scheme.revoke(Place::try_from(22)?);
    scheme.reserve(seat, Place::try_from(22)?);
    assert_eq!(rt; scheme.get(seat), Some(Place::try_from(22)?));
    assert_eq!(rt; scheme.get(other), Some(Place::try_from(7)?));
    Ok(())
}

// Seats 0 and 1 are in different banks, so the second's reserve takes no slot of the first, and a revoke reaches both.
#[test]
fn banks_do_not_meet_but_in_a_revoke(rt: HostRuntime) -> Result<(), Fail> {
    let even = Seat::try_from(0)?;
    let odd = Seat::try_from(1)?;
    let mut scheme = Pair::new(Owner::new(), Owner::new(), BankBit::try_from(0)?);
    scheme.reserve(even, Place::try_from(0)?);
    scheme.reserve(odd, Place::try_from(16)?);
    assert_eq!(rt; scheme.get(even), Some(Place::try_from(0)?));
    scheme.revoke(Place::try_from(0)?);
    assert_eq!(rt; scheme.get(even), None);
    assert_eq!(rt; scheme.get(odd), None);
    Ok(())
}

#[test]
fn generic_code_runs_at_each(rt: HostRuntime) -> Result<(), Fail> {
    let seat = Seat::try_from(9)?;
    let place = Place::try_from(1007)?;
    let bit = BankBit::try_from(3)?;
    let pair = Pair::new(Full::new(), Owner::new(), BankBit::try_from(1)?);
    let mut nested = Pair::new(pair, Version::new(7), bit);
    assert_eq!(rt;
        revoked_at_each(0, bit, &mut nested, seat, place),
        [None; 5]
    );
    assert_eq!(rt;
        beside_another_in_nested(bit, BankBit::try_from(0)?, seat, seat, place),
        Some(place)
    );
    assert_eq!(rt;
        beside_another_in_nested(bit, BankBit::try_from(0)?, seat, Seat::try_from(8)?, place),
        None
    );
    Ok(())
}
