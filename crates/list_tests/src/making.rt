// What making leaves of cells, rows, anchor and marks that were used before.
use crate::lent::{Lent, away, begin_of, cell, link_to};
use basis::answer::Answer;
use basis::bounded::{Place, Seat};
use basis::kind::Kind;
use basis::refusal::Refusal;
use list_cells::cell::Anchor;
use list_making::making::make;
use list_window::index::Index;
use list_window::turn::Request;
use marks::scheme::Scheme;
use schemes::owner::Owner;
use schemes::version::Version;
use std::process::Abort;
use std::test::Fail;

// An index in use: seat 0 is in the middle of an operation, and every seat has a mark.
fn used(rt: &impl Abort) -> Result<Lent, Fail> {
    let mut lent = Lent::listed();
    lent.cells[1] = cell(20, Some(900), true);
    lent.anchor.free = link_to(900);
    assert_eq!(rt; lent.call(0, begin_of(Kind::Insert, 15)), Answer::Ok);
    // the sixteen seats are numbers, and no slice
    for seat in 0..16u16 {
        lent.scheme
            .reserve(Seat::try_from(seat)?, Place::try_from(2)?);
    }
    Ok(lent)
}

#[test]
fn keys_stay_and_all_else_is_new(rt: HostRuntime) -> Result<(), Fail> {
    let mut lent = used(&rt)?;
    assert_eq!(rt; lent.make(2), Answer::Ok);
    let after = lent.picture();
    assert_eq!(rt;
        after.cells,
        [
            cell(10, Some(1), false),
            cell(20, Some(2), false),
            cell(77, None, false),
        ]
    );
    assert_eq!(rt; after.rows, away());
    assert_eq!(rt;
        after.anchor,
        Anchor {
            count: 3,
            window: 2,
            head: None,
            free: link_to(0),
        }
    );
    assert_eq!(rt; after.marks, [None; 16]);
    Ok(())
}

#[test]
fn a_refused_making_alters_nothing(rt: HostRuntime) -> Result<(), Fail> {
    let mut lent = used(&rt)?;
    let before = lent.picture();
    assert_eq!(rt; lent.make(65), Answer::Refused(Refusal::WrongSizes));
    assert_eq!(rt; lent.picture(), before);
    Ok(())
}

// A making releases the marks that a scheme has from before; each seat can mark again.
fn check_released<S: Scheme>(rt: &impl Abort, scheme: &mut S) -> Result<(), Fail> {
    let mut lent = Lent::listed();
    let first = Seat::try_from(0)?;
    let last = Seat::try_from(15)?;
    let place = Place::try_from(1)?;
    scheme.reserve(first, Place::try_from(0)?);
    scheme.reserve(last, place);
    assert_eq!(rt; scheme.get(first), Some(Place::try_from(0)?));
    let mut index = Index::over(&mut lent.cells, &mut lent.rows, &mut lent.anchor, scheme);
    assert_eq!(rt; make(&mut index, 2), Ok(()));
    assert_eq!(rt; scheme.get(first), None);
    assert_eq!(rt; scheme.get(last), None);
    scheme.reserve(last, place);
    assert_eq!(rt; scheme.get(last), Some(place));
    Ok(())
}

#[test]
fn marks_of_relaxed_schemes_are_released(rt: HostRuntime) -> Result<(), Fail> {
    check_released(&rt, &mut Owner::new())?;
    check_released(&rt, &mut Version::new(4_294_967_295))
}
