// Calls that are lent other cells, or other rows, than the index's own: where the answer looks at none of them, the run goes on.
use crate::lent::{Lent, Picture, away, begin_of, cell};
use crate::other_cells::begin_on_other_cells;
use basis::answer::Answer;
use basis::kind::Kind;
use basis::mask::Mask;
use basis::refusal::Refusal;
use key_types::sector::Sector;
use list::calls::begin;
use list_cells::cell::Cell;
use list_window::index::Index;
use list_window::row::{Doing, Row};
use list_window::turn::Request;
use std::process::Abort;

// Other cells than those of the index, as many: with bad links, and none of the keys.
fn others() -> [Cell<Sector>; 3] {
    [
        cell(7, Some(900), false),
        cell(3, Some(0), true),
        cell(5, Some(2), true),
    ]
}

// One call that is lent these cells in place of the index's own, which stay as they are.
fn call_on_cells(
    rt: &impl Abort,
    lent: &mut Lent,
    cells: [Cell<Sector>; 3],
    seat: u8,
    request: Request<Sector>,
) -> Answer {
    let own = lent.cells;
    lent.cells = cells;
    let answer = lent.call(seat, request);
    assert_eq!(rt; lent.cells, cells);
    lent.cells = own;
    answer
}

// Joins, begins, abandons and leaves are accepted on other cells, and the index goes on as if they were its own.
#[test]
fn calls_but_steps_are_accepted_on_other_cells(rt: HostRuntime) {
    let mut lent = Lent::listed();
    let mut same = Lent::listed();
    for request in [
        Request::Join,
        begin_of(Kind::Insert, 15),
        Request::Abandon,
        begin_of(Kind::Remove, 20),
        Request::Leave,
        Request::Join,
        begin_of(Kind::Insert, 15),
    ] {
        assert_eq!(rt;
            call_on_cells(&rt, &mut lent, others(), 1, request),
            Answer::Ok
        );
        assert_eq!(rt; same.call(1, request), Answer::Ok);
        assert_eq!(rt; lent.picture(), same.picture());
    }
    assert_eq!(rt; lent.call(1, Request::Step), Answer::Yes);
    assert_eq!(rt; same.call(1, Request::Step), Answer::Yes);
    assert_eq!(rt; lent.picture(), same.picture());
}

// The same by the call whose contract says so, of seat 3, whose window from the head meets both listed cells.
#[test]
fn a_begin_is_accepted_on_other_cells(rt: HostRuntime) {
    let mut lent = Lent::listed();
    let mut cells = others();
    let target = Sector { number: 20 };
    let mut index = Index::over(
        &mut cells,
        &mut lent.rows,
        &mut lent.anchor,
        &mut lent.scheme,
    );
    let begun = begin_on_other_cells(&mut index, &mut lent.mask, 3, Kind::Lookup, target);
    assert_eq!(rt; begun, Ok(()));
    assert_eq!(rt; cells, others());
    assert_eq!(rt; lent.call(3, Request::Step), Answer::Yes);
}

// A call that is refused on other cells leaves these and the index as they were.
fn check_refused_on_others(
    rt: &impl Abort,
    lent: &mut Lent,
    seat: u8,
    request: Request<Sector>,
    refusal: Refusal,
) {
    let before: Picture = lent.picture();
    let answer = call_on_cells(rt, lent, others(), seat, request);
    assert_eq!(rt; answer, Answer::Refused(refusal));
    assert_eq!(rt; lent.picture(), before);
}

// Every refusal of a number, of the mask and of a row looks at no cell. Seat 0 is idle and then running, seat 1 away.
#[test]
fn refusals_are_the_same_on_other_cells(rt: HostRuntime) {
    let mut lent = Lent::listed();
    let begins = begin_of(Kind::Insert, 15);
    check_refused_on_others(&rt, &mut lent, 16, Request::Step, Refusal::OutOfRange);
    check_refused_on_others(&rt, &mut lent, 0, Request::Join, Refusal::NotAway);
    check_refused_on_others(&rt, &mut lent, 0, Request::Step, Refusal::NotRunning);
    check_refused_on_others(&rt, &mut lent, 0, Request::Abandon, Refusal::NotRunning);
    for request in [Request::Leave, begins, Request::Step, Request::Abandon] {
        check_refused_on_others(&rt, &mut lent, 1, request, Refusal::Away);
    }
    assert_eq!(rt; lent.call(0, begins), Answer::Ok);
    check_refused_on_others(&rt, &mut lent, 0, begins, Refusal::AlreadyRunning);
    check_refused_on_others(&rt, &mut lent, 0, Request::Join, Refusal::NotAway);
    lent.mask.level = 7;
    check_refused_on_others(&rt, &mut lent, 0, Request::Step, Refusal::MaskRaised);
}

// Two cells where the index has three are refused for their number, whatever sixteen rows are lent beside them; and so are other rows where
// the seat is out of range or the mask is raised.
#[test]
fn rows_are_not_looked_at_before_the_sizes(rt: HostRuntime) {
    let mut lent = Lent::listed();
    let mut rows = [Row { doing: Doing::Idle }; 16];
    for (seat, level, refusal) in [
        (16, 5, Refusal::OutOfRange),
        (0, 5, Refusal::WrongSizes),
        (0, 7, Refusal::WrongSizes),
    ] {
        let before = lent.picture();
        let mut mask = Mask { level };
        let mut index = Index::over(
            &mut lent.cells[0..2],
            &mut rows,
            &mut lent.anchor,
            &mut lent.scheme,
        );
        let begun = begin(
            &mut index,
            &mut mask,
            seat,
            Kind::Insert,
            Sector { number: 15 },
        );
        assert_eq!(rt; begun, Err(refusal));
        assert_eq!(rt; rows, [Row { doing: Doing::Idle }; 16]);
        assert_eq!(rt; lent.picture(), before);
    }
}

// A raised mask is refused on other rows as on the index's own.
#[test]
fn a_raised_mask_is_refused_on_other_rows(rt: HostRuntime) {
    let mut lent = Lent::listed();
    let own = lent.rows;
    lent.mask.level = 7;
    lent.rows = away();
    lent.check_refused(&rt, 0, Request::Step, Refusal::MaskRaised);
    lent.rows = own;
    lent.check_refused(&rt, 0, Request::Step, Refusal::MaskRaised);
}
