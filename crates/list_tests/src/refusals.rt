// The refusals by seat, mask and row: their order, and that they alter nothing.
use crate::lent::{Lent, begin_of};
use basis::answer::Answer;
use basis::kind::Kind;
use basis::refusal::Refusal;
use key_types::sector::Sector;
use list_window::turn::Request;

fn requests() -> [Request<Sector>; 5] {
    [
        Request::Join,
        Request::Leave,
        begin_of(Kind::Insert, 15),
        Request::Step,
        Request::Abandon,
    ]
}

#[test]
fn seat_16_comes_before_anything_else(rt: HostRuntime) {
    let mut lent = Lent::listed();
    lent.mask.level = 7;
    lent.anchor.count = 4;
    for request in requests() {
        lent.check_refused(&rt, 16, request, Refusal::OutOfRange);
        lent.check_refused(&rt, 255, request, Refusal::OutOfRange);
    }
}

#[test]
fn sizes_come_before_the_mask(rt: HostRuntime) {
    let mut lent = Lent::listed();
    lent.mask.level = 7;
    lent.anchor.count = 4;
    for request in requests() {
        lent.check_refused(&rt, 15, request, Refusal::WrongSizes);
    }
}

// Seat 0 is idle and seat 1 away.
#[test]
fn the_mask_comes_before_the_row(rt: HostRuntime) {
    let mut lent = Lent::listed();
    for level in [7, 8, 255] {
        lent.mask.level = level;
        for request in requests() {
            lent.check_refused(&rt, 0, request, Refusal::MaskRaised);
            lent.check_refused(&rt, 1, request, Refusal::MaskRaised);
        }
    }
}

#[test]
fn level_6_is_taken_and_put_back(rt: HostRuntime) {
    let mut lent = Lent::listed();
    lent.mask.level = 6;
    assert_eq!(rt; lent.call(15, Request::Join), Answer::Ok);
    assert_eq!(rt; lent.mask.level, 6);
    assert_eq!(rt; lent.call(15, begin_of(Kind::Lookup, 20)), Answer::Ok);
    assert_eq!(rt; lent.call(15, Request::Step), Answer::Yes);
    assert_eq!(rt; lent.mask.level, 6);
    lent.check_refused(&rt, 15, Request::Step, Refusal::NotRunning);
    assert_eq!(rt; lent.call(15, Request::Leave), Answer::Ok);
    assert_eq!(rt; lent.mask.level, 6);
}

#[test]
fn an_away_row_only_joins(rt: HostRuntime) {
    let mut lent = Lent::listed();
    for request in [
        Request::Leave,
        begin_of(Kind::Remove, 10),
        Request::Step,
        Request::Abandon,
    ] {
        lent.check_refused(&rt, 1, request, Refusal::Away);
    }
    assert_eq!(rt; lent.call(1, Request::Join), Answer::Ok);
}

#[test]
fn an_idle_row_neither_joins_nor_steps(rt: HostRuntime) {
    let mut lent = Lent::listed();
    lent.check_refused(&rt, 0, Request::Join, Refusal::NotAway);
    lent.check_refused(&rt, 0, Request::Step, Refusal::NotRunning);
    lent.check_refused(&rt, 0, Request::Abandon, Refusal::NotRunning);
    assert_eq!(rt; lent.call(0, Request::Leave), Answer::Ok);
}

#[test]
fn a_running_row_neither_joins_nor_begins(rt: HostRuntime) {
    let mut lent = Lent::listed();
    assert_eq!(rt; lent.call(0, begin_of(Kind::Remove, 10)), Answer::Ok);
    lent.check_refused(&rt, 0, Request::Join, Refusal::NotAway);
    lent.check_refused(&rt, 0, begin_of(Kind::Lookup, 20), Refusal::AlreadyRunning);
    assert_eq!(rt; lent.call(0, Request::Abandon), Answer::Ok);
    lent.check_refused(&rt, 0, Request::Step, Refusal::NotRunning);
    assert_eq!(rt; lent.call(0, begin_of(Kind::Remove, 10)), Answer::Ok);
    assert_eq!(rt; lent.call(0, Request::Leave), Answer::Ok);
}
