// Whole schedules, replayed under each scheme: every answer, and every refusal that a schedule can get.
use replay::replay;
use std::alloc::{AllocError, Global};
use std::process::Abort;
use std::test::Fail;

// One call: its seat, and the sector of a begin. The tests write it as bytes themselves, so that no schedule is made with the code that reads it.
#[derive(Clone, Copy, PartialEq, Eq, Debug)]
pub(crate) enum Call {
    Join(u8),
    Leave(u8),
    Lookup(u8, u32),
    Insert(u8, u32),
    Remove(u8, u32),
    Step(u8),
    Abandon(u8),
}

// The first byte and a setup: scheme (1 full, 2 owner, 3 version), cells and window.
pub(crate) fn schedule(
    heap: Global,
    scheme: u8,
    cells: u16,
    window: u8,
) -> Result<Vec<u8>, AllocError> {
    let mut bytes = Vec::new(heap);
    let [high, low] = cells.to_be_bytes();
    bytes.extend_from_slice(&[1, 0, 5, 0, scheme, high, low, window])?;
    Ok(bytes)
}

fn push_begin(bytes: &mut Vec<u8>, byte: u8, seat: u8, sector: u32) -> Result<(), AllocError> {
    let [a, b, c, d] = sector.to_be_bytes();
    bytes.extend_from_slice(&[0, 6, byte, seat, a, b, c, d])
}

pub(crate) fn push_call(bytes: &mut Vec<u8>, call: Call) -> Result<(), AllocError> {
    match call {
        Call::Join(seat) => bytes.extend_from_slice(&[0, 2, 1, seat]),
        Call::Leave(seat) => bytes.extend_from_slice(&[0, 2, 2, seat]),
        Call::Lookup(seat, sector) => push_begin(bytes, 3, seat, sector),
        Call::Insert(seat, sector) => push_begin(bytes, 4, seat, sector),
        Call::Remove(seat, sector) => push_begin(bytes, 5, seat, sector),
        Call::Step(seat) => bytes.extend_from_slice(&[0, 2, 6, seat]),
        Call::Abandon(seat) => bytes.extend_from_slice(&[0, 2, 7, seat]),
    }
}

pub(crate) fn push_calls(bytes: &mut Vec<u8>, calls: &[Call]) -> Result<(), AllocError> {
    for call in calls {
        push_call(bytes, *call)?;
    }
    Ok(())
}

// Each of the answers, which stand with commas between them, on a line with its number.
pub(crate) fn numbered(heap: Global, answers: &str) -> Result<String, AllocError> {
    let mut text = String::new(heap);
    for (index, answer) in answers.split(',').enumerate() {
        let number = index.saturating_add(1);
        text.push_str(format!(in heap; "{number} {answer}\n")?.as_str())?;
    }
    Ok(text)
}

// Calls on three cells with window 2, and their answers. From the head seats 0 and 2 meet one cell, and seats 1 and 3 two.
fn check_calls(
    rt: &impl Abort,
    heap: Global,
    scheme: u8,
    calls: &[Call],
    answers: &str,
) -> Result<(), Fail> {
    let mut bytes = schedule(heap, scheme, 3, 2)?;
    push_calls(&mut bytes, calls)?;
    assert_eq!(rt;
        replay(heap, bytes.as_slice())?.as_str(),
        numbered(heap, answers)?.as_str()
    );
    Ok(())
}

// Seat 0 fills the three cells; an insert into the full list answers full for a new key and no for a present one. Seat 1 walks to 30 and
// waits at 20; seat 0 removes 20, and the very next step, of seat 3, takes the freed cell. Seat 1, whose mark is struck, begins again
// at the head, waits and finds 30. Then 20 is missing, and so is 99. The file is samples/struck.schedule.
const STORY: [Call; 32] = [
    Call::Join(0),
    Call::Insert(0, 10),
    Call::Step(0),
    Call::Insert(0, 20),
    Call::Step(0),
    Call::Step(0),
    Call::Insert(0, 30),
    Call::Step(0),
    Call::Step(0),
    Call::Insert(0, 40),
    Call::Step(0),
    Call::Step(0),
    Call::Step(0),
    Call::Insert(0, 20),
    Call::Step(0),
    Call::Step(0),
    Call::Join(1),
    Call::Lookup(1, 30),
    Call::Step(1),
    Call::Join(3),
    Call::Insert(3, 25),
    Call::Remove(0, 20),
    Call::Step(0),
    Call::Step(0),
    Call::Step(3),
    Call::Step(1),
    Call::Step(1),
    Call::Lookup(1, 20),
    Call::Step(1),
    Call::Remove(1, 99),
    Call::Step(1),
    Call::Step(1),
];

#[test]
fn a_cell_is_freed_and_taken_under_a_walker(rt: HostRuntime) -> Result<(), Fail> {
    let heap = rt.alloc();
    let answers =
        "ok,ok,ok,yes,ok,wait,yes,ok,wait,yes,ok,wait,wait,full,ok,wait,no,ok,ok,wait,ok,ok,ok,wait,yes,yes,wait,yes,ok,no,ok,wait,no";
    for scheme in 1..=3u8 {
        check_calls(&rt, heap, scheme, &STORY, answers)?;
    }
    Ok(())
}

// Every refusal of a call that a schedule can get: 1, 4, 5, 6 and 7, and that each leaves the row as it was.
const REFUSED: [Call; 18] = [
    Call::Join(16),
    Call::Join(0),
    Call::Join(0),
    Call::Leave(1),
    Call::Lookup(1, 5),
    Call::Step(1),
    Call::Abandon(1),
    Call::Step(0),
    Call::Abandon(0),
    Call::Insert(0, 7),
    Call::Remove(0, 7),
    Call::Step(255),
    Call::Abandon(0),
    Call::Abandon(0),
    Call::Insert(0, 7),
    Call::Leave(0),
    Call::Step(0),
    Call::Leave(0),
];

#[test]
fn calls_are_refused_by_seat_and_row(rt: HostRuntime) -> Result<(), Fail> {
    let heap = rt.alloc();
    let answers =
        "ok,refused 1,ok,refused 4,refused 5,refused 5,refused 5,refused 5,refused 7,refused 7,ok,refused 6,refused 1,ok,refused 7,ok,ok,refused 5,refused 5";
    for scheme in 1..=3u8 {
        check_calls(&rt, heap, scheme, &REFUSED, answers)?;
    }
    Ok(())
}

// Seat 0 and another seat walk by turns.
fn beside(seat: u8) -> [Call; 16] {
    [
        Call::Join(0),
        Call::Insert(0, 30),
        Call::Step(0),
        Call::Insert(0, 20),
        Call::Step(0),
        Call::Insert(0, 10),
        Call::Step(0),
        Call::Join(seat),
        Call::Lookup(0, 40),
        Call::Lookup(seat, 40),
        Call::Step(0),
        Call::Step(seat),
        Call::Step(0),
        Call::Step(seat),
        Call::Step(0),
        Call::Step(seat),
    ]
}

// Seats 0 and 2 wait at the same cell. Under owner each reserve takes the slot from the other seat, so both begin again for ever; under full
// and version both arrive.
#[test]
fn owners_of_one_slot_restart_each_other(rt: HostRuntime) -> Result<(), Fail> {
    let heap = rt.alloc();
    let calls = beside(2);
    let arrive = "ok,ok,ok,yes,ok,yes,ok,yes,ok,ok,ok,wait,wait,wait,wait,no,no";
    let restart = "ok,ok,ok,yes,ok,yes,ok,yes,ok,ok,ok,wait,wait,wait,wait,wait,wait";
    check_calls(&rt, heap, 1, &calls, arrive)?;
    check_calls(&rt, heap, 2, &calls, restart)?;
    check_calls(&rt, heap, 3, &calls, arrive)
}

// Seats 0 and 1 wait at different cells, and both arrive under owner too.
#[test]
fn seats_of_different_widths_do_not_meet(rt: HostRuntime) -> Result<(), Fail> {
    let heap = rt.alloc();
    let arrive = "ok,ok,ok,yes,ok,yes,ok,yes,ok,ok,ok,wait,wait,wait,no,no,refused 7";
    for scheme in 1..=3u8 {
        check_calls(&rt, heap, scheme, &beside(1), arrive)?;
    }
    Ok(())
}

// Inserts keys 10 to 10 × count, the largest first, so that each insert takes one step; key 10 × (count - p) is at place p.
pub(crate) fn push_fill(bytes: &mut Vec<u8>, count: u32) -> Result<(), AllocError> {
    push_call(bytes, Call::Join(0))?;
    for left in (1..count.saturating_add(1)).rev() {
        push_call(bytes, Call::Insert(0, left.saturating_mul(10)))?;
        push_call(bytes, Call::Step(0))?;
    }
    Ok(())
}

// The answers to a setup, to filling so many cells, and then to begin and steps: so many waits and the last answer.
fn fill_answers(heap: Global, count: u32, waits: u32, last: &str) -> Result<String, AllocError> {
    let mut answers = String::from_str(heap, "ok,ok")?;
    for _ in 0..count {
        answers.push_str(",ok,yes")?;
    }
    answers.push_str(",ok")?;
    for _ in 0..waits {
        answers.push_str(",wait")?;
    }
    answers.push_str(last)?;
    Ok(answers)
}

// On a list of 1,008 keys, an operation of seat 0 that waits so often and then answers.
fn check_full_size(
    rt: &impl Abort,
    heap: Global,
    scheme: u8,
    window: u8,
    begin: Call,
    waits: u32,
    last: &str,
) -> Result<(), Fail> {
    let mut bytes = schedule(heap, scheme, 1008, window)?;
    push_fill(&mut bytes, 1008)?;
    push_call(&mut bytes, begin)?;
    for _ in 0..waits {
        push_call(&mut bytes, Call::Step(0))?;
    }
    push_call(&mut bytes, Call::Step(0))?;
    let answers = fill_answers(heap, 1008, waits, last)?;
    assert_eq!(rt;
        replay(heap, bytes.as_slice())?.as_str(),
        numbered(heap, answers.as_str())?.as_str()
    );
    Ok(())
}

// A walk of seat 0 to the end of 1,008 cells takes a window of one cell from the head, 15 of 64 and a rest, or 1,008 windows of 1; then it answers.
#[test]
fn a_list_of_all_cells_is_walked(rt: HostRuntime) -> Result<(), Fail> {
    let heap = rt.alloc();
    let beyond = Call::Lookup(0, 20000);
    check_full_size(&rt, heap, 1, 64, beyond, 16, ",no")?;
    check_full_size(&rt, heap, 2, 64, Call::Insert(0, 20000), 16, ",full")?;
    check_full_size(&rt, heap, 3, 64, Call::Remove(0, 10080), 16, ",yes")?;
    check_full_size(&rt, heap, 1, 1, beyond, 1008, ",no")?;
    check_full_size(&rt, heap, 2, 1, Call::Lookup(0, 10080), 1007, ",yes")?;
    check_full_size(&rt, heap, 3, 1, Call::Insert(0, 10080), 1007, ",no")
}

// Seat 1, which meets two cells from the head, marks place 16; seat 0 removes the key at place 0, which is in the same slot. The full scheme
// keeps the mark; owner and version drop it, and the walker begins again and waits once more.
fn check_same_slot(rt: &impl Abort, heap: Global, scheme: u8, more: &str) -> Result<(), Fail> {
    let mut bytes = schedule(heap, scheme, 18, 17)?;
    push_fill(&mut bytes, 18)?;
    push_calls(
        &mut bytes,
        &[
            Call::Join(1),
            Call::Lookup(1, 1000),
            Call::Step(1),
            Call::Remove(0, 180),
            Call::Step(0),
            Call::Step(0),
            Call::Step(1),
            Call::Step(1),
        ],
    )?;
    let mut answers = fill_answers(heap, 18, 0, ",ok,wait,ok,wait,yes,")?;
    answers.push_str(more)?;
    assert_eq!(rt;
        replay(heap, bytes.as_slice())?.as_str(),
        numbered(heap, answers.as_str())?.as_str()
    );
    Ok(())
}

#[test]
fn a_removal_in_the_same_slot_restarts_a_walker(rt: HostRuntime) -> Result<(), Fail> {
    let heap = rt.alloc();
    check_same_slot(&rt, heap, 1, "no,refused 7")?;
    check_same_slot(&rt, heap, 2, "wait,no")?;
    check_same_slot(&rt, heap, 3, "wait,no")
}

// A schedule that is damaged after some good calls: they are answered, the damaged record gets 11, and nothing after it is read.
#[test]
fn damaged_records_end_the_answers(rt: HostRuntime) -> Result<(), Fail> {
    let heap = rt.alloc();
    let mut bytes = schedule(heap, 1, 3, 2)?;
    push_calls(&mut bytes, &[Call::Join(0), Call::Insert(0, 5)])?;
    let good = bytes.len();
    // an unknown call, a join of length 3, a second setup, a record that is cut short
    let damages: [&[u8]; 4] = [
        &[0, 2, 8, 0, 0, 2, 6, 0],
        &[0, 3, 1, 1, 0, 0, 2, 6, 0],
        &[0, 5, 0, 1, 0, 3, 2, 0, 2, 6, 0],
        &[0, 2, 6],
    ];
    for damage in damages {
        bytes.truncate(good);
        bytes.extend_from_slice(damage)?;
        assert_eq!(rt;
            replay(heap, bytes.as_slice())?.as_str(),
            "1 ok\n2 ok\n3 ok\n4 refused 11\n"
        );
    }
    // a refused setup is the last that is answered
    let mut refused = schedule(heap, 2, 3, 65)?;
    push_calls(&mut refused, &[Call::Join(0)])?;
    assert_eq!(rt; replay(heap, refused.as_slice())?.as_str(), "1 refused 2\n");
    Ok(())
}
