// Lists of calls, run by the driver: the same schedule at each key and scheme, and what the driver refuses.
use crate::lent::{away, cell, link_to, marks_of};
use basis::answer::Answer;
use basis::bounded::BankBit;
use basis::kind::Kind;
use basis::mask::Mask;
use basis::refusal::Refusal;
use key_types::sector::Sector;
use key_types::wear::Wear;
use keys::key::Key;
use list_cells::cell::{Anchor, Cell};
use list_driver::driver::{Ask, run_calls};
use list_window::index::Index;
use list_window::row::{Doing, Row};
use list_window::turn::Request;
use marks::scheme::Scheme;
use schemes::full::Full;
use schemes::owner::Owner;
use schemes::pair::Pair;
use schemes::version::Version;
use std::process::Abort;
use std::test::Fail;

// A call of a seat at mask level 0.
fn ask<K: Key>(seat: u8, request: Request<K>) -> Ask<K> {
    Ask {
        seat,
        level: 0,
        request,
    }
}

fn begins<K: Key>(seat: u8, kind: Kind, target: K) -> Ask<K> {
    ask(seat, Request::Begin { kind, target })
}

// With windows of 2 cells seat 0, which meets one cell from the head, inserts keys a, b and d, the last two in two steps each. Seat 1, which meets
// two, looks for d and waits at b; seat 0 removes b, on which seat 1's mark stands, and puts c into its cell; seat 1 finds d, beginning
// again at the head. The index is then full. No mark is dropped but by the removal, so the answers are the same on relaxed schemes.
fn schedule<K: Key>(a: K, b: K, c: K, d: K, e: K) -> [Ask<K>; 24] {
    [
        ask(0, Request::Join),
        begins(0, Kind::Insert, a),
        ask(0, Request::Step),
        begins(0, Kind::Insert, b),
        ask(0, Request::Step),
        ask(0, Request::Step),
        begins(0, Kind::Insert, d),
        ask(0, Request::Step),
        ask(0, Request::Step),
        ask(1, Request::Join),
        begins(1, Kind::Lookup, d),
        ask(1, Request::Step),
        begins(0, Kind::Remove, b),
        ask(0, Request::Step),
        ask(0, Request::Step),
        begins(0, Kind::Insert, c),
        ask(0, Request::Step),
        ask(0, Request::Step),
        ask(1, Request::Step),
        ask(1, Request::Step),
        begins(0, Kind::Insert, e),
        ask(0, Request::Step),
        ask(0, Request::Step),
        ask(0, Request::Step),
    ]
}

const EXPECTED: [Answer; 24] = [
    Answer::Ok,
    Answer::Ok,
    Answer::Yes,
    Answer::Ok,
    Answer::Wait,
    Answer::Yes,
    Answer::Ok,
    Answer::Wait,
    Answer::Yes,
    Answer::Ok,
    Answer::Ok,
    Answer::Wait,
    Answer::Ok,
    Answer::Wait,
    Answer::Yes,
    Answer::Ok,
    Answer::Wait,
    Answer::Yes,
    Answer::Wait,
    Answer::Yes,
    Answer::Ok,
    Answer::Wait,
    Answer::Wait,
    Answer::Full,
];

fn no_anchor() -> Anchor {
    Anchor {
        count: 0,
        window: 0,
        head: None,
        free: None,
    }
}

// The calls are run with windows of 2 cells, and the mask is put back to its level.
fn check_run<K: Key, S: Scheme>(
    rt: &impl Abort,
    cells: &mut [Cell<K>],
    rows: &mut [Row<K>],
    scheme: &mut S,
    asks: &[Ask<K>],
) {
    let mut anchor = no_anchor();
    let mut mask = Mask { level: 7 };
    let mut answers = [Answer::Ok; 24];
    let mut index = Index::over(cells, rows, &mut anchor, scheme);
    let told = run_calls(&mut index, &mut mask, 2, asks, &mut answers);
    assert_eq!(rt; told, Ok(()));
    assert_eq!(rt; mask.level, 7);
    assert_eq!(rt; answers, EXPECTED);
}

// The same on every scheme: full, owner, version from 0 and from the last number, and a pair with a pair in it.
fn check_schemes<K: Key>(
    rt: &impl Abort,
    cells: &mut [Cell<K>],
    rows: &mut [Row<K>],
    asks: &[Ask<K>],
) -> Result<(), Fail> {
    check_run(rt, cells, rows, &mut Full::new(), asks);
    check_run(rt, cells, rows, &mut Owner::new(), asks);
    check_run(rt, cells, rows, &mut Version::new(0), asks);
    check_run(rt, cells, rows, &mut Version::new(4_294_967_295), asks);
    let inner = Pair::new(Full::new(), Owner::new(), BankBit::try_from(0)?);
    let mut nested = Pair::new(inner, Version::new(4_294_967_295), BankBit::try_from(3)?);
    check_run(rt, cells, rows, &mut nested, asks);
    Ok(())
}

#[test]
fn sectors_on_every_scheme(rt: HostRuntime) -> Result<(), Fail> {
    let last = 4_294_967_295;
    let asks = schedule(
        Sector { number: 0 },
        Sector { number: 20 },
        Sector { number: 25 },
        Sector { number: 30 },
        Sector { number: last },
    );
    let mut cells = [cell(7, None, true); 3];
    check_schemes(&rt, &mut cells, &mut away(), &asks)
}

#[test]
fn wear_keys_on_every_scheme(rt: HostRuntime) -> Result<(), Fail> {
    let key = Wear::new(0, 9)?;
    let asks = schedule(
        key,
        Wear::new(7, 8)?,
        Wear::new(2874, 65535)?,
        Wear::new(2875, 0)?,
        Wear::new(2875, 1)?,
    );
    let mut cells = [Cell::new(key, None, false); 3];
    let mut rows = [Row { doing: Doing::Idle }; 16];
    check_schemes(&rt, &mut cells, &mut rows, &asks)
}

// On the owner scheme seat 2, which meets one cell from the head as seat 0 does, takes the slot of seat 0's mark, so that seat 0 begins again
// at the head and waits once more.
#[test]
fn a_relaxed_walker_begins_again(rt: HostRuntime) {
    let target = Sector { number: 40 };
    let mut asks = schedule(
        Sector { number: 10 },
        Sector { number: 20 },
        Sector { number: 25 },
        Sector { number: 30 },
        target,
    );
    // After the three inserts both seats look for 40; the last step of seat 0 finds no mark.
    asks[9] = ask(2, Request::Join);
    asks[10] = begins(2, Kind::Lookup, target);
    asks[11] = begins(0, Kind::Lookup, target);
    asks[12] = ask(0, Request::Step);
    asks[13] = ask(2, Request::Step);
    asks[14] = ask(0, Request::Step);
    let mut answers = [Answer::Ok; 15];
    let mut cells = [cell(7, None, true); 3];
    let mut anchor = no_anchor();
    let mut mask = Mask { level: 0 };
    let mut scheme = Owner::new();
    let mut rows = away();
    let mut index = Index::over(&mut cells, &mut rows, &mut anchor, &mut scheme);
    let told = run_calls(&mut index, &mut mask, 2, &asks[0..15], &mut answers);
    assert_eq!(rt; told, Ok(()));
    assert_eq!(rt; answers[12], Answer::Wait);
    assert_eq!(rt; answers[13], Answer::Wait);
    assert_eq!(rt; answers[14], Answer::Wait);
    let marks = marks_of(&scheme);
    assert_eq!(rt; (marks[0], marks[2]), (link_to(0), None));
}

// What the driver answers to so many calls at that level, with room for so many answers, on three cells.
fn drive_sized(
    rt: &impl Abort,
    asks: usize,
    answers: usize,
    level: u8,
    window: u8,
) -> (Result<(), Refusal>, Answer) {
    let ask = Ask {
        seat: 3,
        level,
        request: Request::Join,
    };
    let lent_asks = [ask; 4];
    let mut lent_answers = [Answer::No; 4];
    let mut cells = [cell(7, None, true); 3];
    let mut anchor = no_anchor();
    let mut mask = Mask { level: 5 };
    let mut scheme = Full::new();
    assert!(rt; asks <= 4 && answers <= 4);
    let mut rows = away();
    let mut index = Index::over(&mut cells, &mut rows, &mut anchor, &mut scheme);
    let told = run_calls(
        &mut index,
        &mut mask,
        window,
        &lent_asks[0..asks],
        &mut lent_answers[0..answers],
    );
    assert_eq!(rt; mask.level, 5);
    assert_eq!(rt; anchor.window, if told.is_ok() { window } else { 0 });
    (told, lent_answers[0])
}

#[test]
fn the_driver_takes_as_many_answers_as_calls(rt: HostRuntime) {
    let refused = Err(Refusal::WrongSizes);
    assert_eq!(rt; drive_sized(&rt, 3, 2, 0, 1), (refused, Answer::No));
    assert_eq!(rt; drive_sized(&rt, 2, 3, 0, 1), (refused, Answer::No));
    assert_eq!(rt; drive_sized(&rt, 2, 2, 0, 65), (refused, Answer::No));
    assert_eq!(rt; drive_sized(&rt, 0, 0, 0, 64), (Ok(()), Answer::No));
    assert_eq!(rt; drive_sized(&rt, 1, 1, 6, 64), (Ok(()), Answer::Ok));
    assert_eq!(rt;
        drive_sized(&rt, 1, 1, 7, 64),
        (Ok(()), Answer::Refused(Refusal::MaskRaised))
    );
}
