// The sizes: at making, and at each of the five calls.
use crate::lent::{cell, link_to};
use basis::answer::Answer;
use basis::kind::Kind;
use basis::mask::Mask;
use basis::refusal::Refusal;
use key_types::sector::Sector;
use list::calls::{abandon, begin, join, leave, step};
use list_cells::cell::{Anchor, Cell};
use list_making::making::make;
use list_window::index::Index;
use list_window::row::{Doing, Row};
use schemes::full::Full;
use std::process::Abort;

const REFUSED: Answer = Answer::Refused(Refusal::WrongSizes);

fn anchor_of(count: u16, window: u8) -> Anchor {
    Anchor {
        count,
        window,
        head: None,
        free: link_to(0),
    }
}

// What a making of so many cells and rows and that window answers.
fn make_sized(rt: &impl Abort, cells: usize, rows: usize, window: u8) -> Answer {
    let mut lent_cells = [cell(1, None, true); 1009];
    let mut lent_rows = [Row { doing: Doing::Idle }; 17];
    let mut anchor = anchor_of(9, 9);
    let mut scheme = Full::new();
    assert!(rt; cells <= 1009 && rows <= 17);
    let mut index = Index::over(
        &mut lent_cells[0..cells],
        &mut lent_rows[0..rows],
        &mut anchor,
        &mut scheme,
    );
    let made = make(&mut index, window);
    assert_eq!(rt; anchor.window, if made.is_ok() { window } else { 9 });
    Answer::from(made)
}

#[test]
fn making_takes_1_to_1008_cells(rt: HostRuntime) {
    assert_eq!(rt; make_sized(&rt, 0, 16, 1), REFUSED);
    assert_eq!(rt; make_sized(&rt, 1, 16, 1), Answer::Ok);
    assert_eq!(rt; make_sized(&rt, 1008, 16, 1), Answer::Ok);
    assert_eq!(rt; make_sized(&rt, 1009, 16, 1), REFUSED);
}

#[test]
fn making_takes_windows_of_1_to_64(rt: HostRuntime) {
    assert_eq!(rt; make_sized(&rt, 3, 16, 0), REFUSED);
    assert_eq!(rt; make_sized(&rt, 3, 16, 1), Answer::Ok);
    assert_eq!(rt; make_sized(&rt, 3, 16, 64), Answer::Ok);
    assert_eq!(rt; make_sized(&rt, 3, 16, 65), REFUSED);
    assert_eq!(rt; make_sized(&rt, 3, 16, 255), REFUSED);
}

#[test]
fn making_takes_sixteen_rows(rt: HostRuntime) {
    assert_eq!(rt; make_sized(&rt, 3, 0, 4), REFUSED);
    assert_eq!(rt; make_sized(&rt, 3, 15, 4), REFUSED);
    assert_eq!(rt; make_sized(&rt, 3, 17, 4), REFUSED);
}

// The answers of the five calls of seat 0, one after another: join, begin a lookup, step, abandon, leave.
fn call_each(
    cells: &mut [Cell<Sector>],
    rows: &mut [Row<Sector>],
    anchor: &mut Anchor,
) -> [Answer; 5] {
    let mut scheme = Full::new();
    let mut mask = Mask { level: 0 };
    let target = Sector { number: 5 };
    let mut index = Index::over(cells, rows, anchor, &mut scheme);
    [
        Answer::from(join(&mut index, &mut mask, 0)),
        Answer::from(begin(&mut index, &mut mask, 0, Kind::Lookup, target)),
        step(&mut index, &mut mask, 0),
        Answer::from(abandon(&mut index, &mut mask, 0)),
        Answer::from(leave(&mut index, &mut mask, 0)),
    ]
}

// The same, on so many cells and rows, with that anchor.
fn call_sized(rt: &impl Abort, cells: usize, rows: usize, count: u16, window: u8) -> [Answer; 5] {
    let mut lent_cells = [cell(1, None, false); 1009];
    let mut lent_rows = [Row { doing: Doing::Away }; 17];
    let mut anchor = anchor_of(count, window);
    assert!(rt; cells <= 1009 && rows <= 17);
    call_each(
        &mut lent_cells[0..cells],
        &mut lent_rows[0..rows],
        &mut anchor,
    )
}

const TAKEN: [Answer; 5] = [
    Answer::Ok,
    Answer::Ok,
    Answer::No,
    Answer::Refused(Refusal::NotRunning),
    Answer::Ok,
];

#[test]
fn calls_take_as_many_cells_as_the_anchor_says(rt: HostRuntime) {
    assert_eq!(rt; call_sized(&rt, 1, 16, 1, 1), TAKEN);
    assert_eq!(rt; call_sized(&rt, 1008, 16, 1008, 64), TAKEN);
    assert_eq!(rt; call_sized(&rt, 1009, 16, 1009, 64), [REFUSED; 5]);
    assert_eq!(rt; call_sized(&rt, 0, 16, 0, 64), [REFUSED; 5]);
    assert_eq!(rt; call_sized(&rt, 3, 16, 4, 4), [REFUSED; 5]);
    assert_eq!(rt; call_sized(&rt, 4, 16, 3, 4), [REFUSED; 5]);
}

#[test]
fn calls_take_sixteen_rows_and_windows_of_1_to_64(rt: HostRuntime) {
    assert_eq!(rt; call_sized(&rt, 3, 15, 3, 4), [REFUSED; 5]);
    assert_eq!(rt; call_sized(&rt, 3, 17, 3, 4), [REFUSED; 5]);
    assert_eq!(rt; call_sized(&rt, 3, 16, 3, 0), [REFUSED; 5]);
    assert_eq!(rt; call_sized(&rt, 3, 16, 3, 64), TAKEN);
    assert_eq!(rt; call_sized(&rt, 3, 16, 3, 65), [REFUSED; 5]);
}
