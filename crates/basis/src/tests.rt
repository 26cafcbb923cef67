// The edges of the ranges, the text of an answer, a kind, a place and a refusal, and the mask on both ways out of a call.
ghost use Rattle.std.specs.Prelude.{◌≡◌};

use crate::answer::Answer;
use crate::bounded::{BankBit, Place, Seat};
use crate::kind::Kind;
use crate::mask::{Guard, Mask};
use crate::refusal::Refusal;
use std::test::Fail;

#[test]
fn ranges_end_where_they_should(rt: HostRuntime) -> Result<(), Fail> {
    assert!(rt; Seat::try_from(0).is_ok());
    assert_eq!(rt; Seat::try_from(15)?.number(), 15);
    assert_eq!(rt; Seat::try_from(16), Err(Refusal::OutOfRange));
    assert_eq!(rt; Place::try_from(1007)?.number(), 1007);
    assert_eq!(rt; Place::try_from(1008), Err(Refusal::OutOfRange));
    assert_eq!(rt; BankBit::try_from(3)?.number(), 3);
    assert_eq!(rt; BankBit::try_from(4), Err(Refusal::OutOfRange));
    Ok(())
}

// Every case, by its number, its value and its text.
#[test]
fn answers_are_told(rt: HostRuntime) -> Result<(), Fail> {
    let heap = rt.alloc();
    let cases = [
        (Answer::No, 0, None, "no"),
        (Answer::Yes, 1, None, "yes"),
        (Answer::Ok, 2, None, "ok"),
        (Answer::Wait, 3, None, "wait"),
        (Answer::Full, 4, None, "full"),
        (
            Answer::Refused(Refusal::BadRecord),
            5,
            Some(11),
            "refused 11",
        ),
    ];
    for (answer, number, value, text) in cases {
        assert_eq!(rt; answer.number(), number);
        assert_eq!(rt; answer.value(), value);
        assert_eq!(rt; format!(in heap; "{answer}")?.as_str(), text);
    }
    Ok(())
}

// Every refusal, by its number and its words.
#[test]
fn refusals_are_told(rt: HostRuntime) -> Result<(), Fail> {
    let heap = rt.alloc();
    let cases = [
        (Refusal::OutOfRange, "1 number out of range"),
        (Refusal::WrongSizes, "2 wrong sizes"),
        (Refusal::MaskRaised, "3 mask already raised"),
        (Refusal::NotAway, "4 row not away"),
        (Refusal::Away, "5 row away"),
        (Refusal::AlreadyRunning, "6 row running"),
        (Refusal::NotRunning, "7 row idle"),
        (Refusal::BadLink, "8 bad link"),
        (Refusal::ScheduleTooLong, "9 schedule too long"),
        (Refusal::NoVersionByte, "10 no first byte 1"),
        (Refusal::BadRecord, "11 bad record"),
    ];
    for (refusal, text) in cases {
        let number = u8::from(refusal);
        assert_eq!(rt; format!(in heap; "{number} {refusal}")?.as_str(), text);
    }
    Ok(())
}

#[test]
fn kinds_and_places_are_spoken(rt: HostRuntime) -> Result<(), Fail> {
    let heap = rt.alloc();
    let cases = [
        (Kind::Lookup, "lookup"),
        (Kind::Insert, "insert"),
        (Kind::Remove, "remove"),
    ];
    for (kind, text) in cases {
        assert_eq!(rt; format!(in heap; "{kind}")?.as_str(), text);
    }
    let place = Place::try_from(1007)?;
    assert_eq!(rt; format!(in heap; "{place}")?.as_str(), "1007");
    Ok(())
}

// Refuses under the raised mask where it is told to.
fn guarded(mask: &mut Mask, refuse: bool) -> Result<u8, Refusal>
    ensures { mask.new.level ≡ mask.old.level }
{
    let _guard = Guard::raise(mask);
    if refuse {
        return Err(Refusal::WrongSizes);
    }
    Ok(7)
}

#[test]
fn the_level_is_put_back(rt: HostRuntime) {
    let mut mask = Mask { level: 3 };
    assert_eq!(rt; guarded(&mut mask, false), Ok(7));
    assert_eq!(rt; mask.level, 3);
    assert_eq!(rt; guarded(&mut mask, true), Err(Refusal::WrongSizes));
    assert_eq!(rt; mask.level, 3);
}

// While the guard lives the level is 7, or what stood above 7; afterwards it is what stood.
#[test]
fn the_level_is_seen_inside(rt: HostRuntime) {
    for (before, inside) in [(0, 7), (6, 7), (7, 7), (8, 8), (255, 255)] {
        let mut mask = Mask { level: before };
        let guard = Guard::raise(&mut mask);
        assert_eq!(rt; guard.level(), inside);
        drop(guard);
        assert_eq!(rt; mask.level, before);
    }
}
