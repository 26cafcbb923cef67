// A worked run on the full scheme: three cells, windows of 2 cells, seats 0 and 1. From the head seat 0 meets one cell, and seat 1 two.
use crate::lent::{Lent, cell, link_to};
use basis::answer::Answer;
use basis::kind::Kind;
use list_window::turn::Request;
use std::process::Abort;

// An empty index, with seats 0 and 1 idle.
fn seated(rt: &impl Abort, window: u8) -> Lent {
    let mut lent = Lent::listed();
    assert_eq!(rt; lent.make(window), Answer::Ok);
    assert_eq!(rt; lent.call(0, Request::Join), Answer::Ok);
    assert_eq!(rt; lent.call(1, Request::Join), Answer::Ok);
    lent
}

// The index with 10, 20 and 30, by three inserts.
fn filled(rt: &impl Abort) -> Lent {
    let mut lent = seated(rt, 2);
    lent.check_steps(rt, 0, Kind::Insert, 10, &[Answer::Yes]);
    lent.check_steps(rt, 0, Kind::Insert, 20, &[Answer::Wait, Answer::Yes]);
    lent.check_steps(rt, 0, Kind::Insert, 30, &[Answer::Wait, Answer::Yes]);
    lent
}

#[test]
fn a_full_index_takes_no_more(rt: HostRuntime) {
    let mut lent = filled(&rt);
    let before = lent.picture();
    assert_eq!(rt;
        before.cells,
        [
            cell(10, Some(1), true),
            cell(20, Some(2), true),
            cell(30, None, true)
        ]
    );
    assert_eq!(rt;
        (before.anchor.head, before.anchor.free),
        (link_to(0), None)
    );
    lent.check_steps(
        &rt,
        0,
        Kind::Insert,
        40,
        &[Answer::Wait, Answer::Wait, Answer::Full],
    );
    lent.check_steps(&rt, 0, Kind::Insert, 20, &[Answer::Wait, Answer::No]);
    assert_eq!(rt; lent.picture(), before);
}

// The walker of seat 1 has its mark struck, begins again at the head, and finds its target; the freed cell is taken again.
#[test]
fn a_removal_strikes_a_mark(rt: HostRuntime) {
    let mut lent = filled(&rt);
    lent.check_steps(&rt, 1, Kind::Lookup, 30, &[Answer::Wait]);
    assert_eq!(rt; lent.picture().marks[1], link_to(1));
    lent.check_steps(&rt, 0, Kind::Remove, 20, &[Answer::Wait, Answer::Yes]);
    assert_eq!(rt; lent.picture().marks, [None; 16]);
    assert_eq!(rt; lent.anchor.free, link_to(1));
    assert_eq!(rt; lent.call(1, Request::Step), Answer::Yes);
    lent.check_steps(&rt, 0, Kind::Insert, 25, &[Answer::Wait, Answer::Yes]);
    assert_eq!(rt;
        lent.cells,
        [
            cell(10, Some(1), true),
            cell(25, Some(2), true),
            cell(30, None, true)
        ]
    );
}

// Windows of one cell over three: as many waits as cells, and then the answer.
#[test]
fn windows_of_one_cell_wait_at_each(rt: HostRuntime) {
    let mut lent = filled(&rt);
    lent.anchor.window = 1;
    lent.check_steps(
        &rt,
        1,
        Kind::Lookup,
        40,
        &[Answer::Wait, Answer::Wait, Answer::Wait, Answer::No],
    );
    assert_eq!(rt; lent.picture().marks, [None; 16]);
}

// A mark is released by abandon and by leave, so the next operation, with a smaller target, starts at the head.
#[test]
fn a_dropped_operation_leaves_no_mark(rt: HostRuntime) {
    let mut lent = filled(&rt);
    lent.check_steps(&rt, 1, Kind::Lookup, 40, &[Answer::Wait]);
    assert_eq!(rt; lent.call(1, Request::Abandon), Answer::Ok);
    assert_eq!(rt; lent.picture().marks, [None; 16]);
    lent.check_steps(&rt, 1, Kind::Lookup, 40, &[Answer::Wait]);
    assert_eq!(rt; lent.call(1, Request::Leave), Answer::Ok);
    assert_eq!(rt; lent.picture().marks, [None; 16]);
    assert_eq!(rt; lent.call(1, Request::Join), Answer::Ok);
    lent.check_steps(&rt, 1, Kind::Lookup, 10, &[Answer::Yes]);
}
