// Sixteen seats that begin at the head together, with windows of sixteen cells and more: each marks another cell.
use crate::replays::{Call, numbered, push_call, push_calls, push_fill, schedule};
use replay::replay;
use std::alloc::{AllocError, Global};
use std::process::Abort;
use std::test::Fail;

// All seats begin a lookup past the last key, and then each takes a step from the head.
fn push_lookups(bytes: &mut Vec<u8>) -> Result<(), AllocError> {
    for seat in 1..16u8 {
        push_call(bytes, Call::Join(seat))?;
    }
    for seat in 0..16u8 {
        push_call(bytes, Call::Lookup(seat, 1000))?;
    }
    for seat in 0..16u8 {
        push_call(bytes, Call::Step(seat))?;
    }
    Ok(())
}

// One seat arrives, and removes the key of the cell that another has marked, waiting so often on its way. Then each other seat takes a
// step, and at last that one two.
fn push_removal(
    bytes: &mut Vec<u8>,
    remover: u8,
    waits: u32,
    struck: u8,
) -> Result<(), AllocError> {
    let key = u32::from(struck).saturating_add(1).saturating_mul(10);
    push_calls(bytes, &[Call::Step(remover), Call::Remove(remover, key)])?;
    for _ in 0..waits {
        push_call(bytes, Call::Step(remover))?;
    }
    push_call(bytes, Call::Step(remover))?;
    for seat in 0..16u8 {
        if seat != remover && seat != struck {
            push_call(bytes, Call::Step(seat))?;
        }
    }
    push_calls(bytes, &[Call::Step(struck), Call::Step(struck)])
}

fn push_often(answers: &mut String, answer: &str, times: u32) -> Result<(), AllocError> {
    for _ in 0..times {
        answers.push_str(answer)?;
    }
    Ok(())
}

// After so many inserts each seat waits once, and then arrives; only the one whose mark is struck begins again, and waits once more.
fn struck_answers(heap: Global, keys: u32, waits: u32) -> Result<String, AllocError> {
    let mut answers = String::from_str(heap, "ok,ok")?;
    push_often(&mut answers, ",ok,yes", keys)?;
    push_often(&mut answers, ",ok", 15)?;
    push_often(&mut answers, ",ok", 16)?;
    push_often(&mut answers, ",wait", 16)?;
    answers.push_str(",no,ok")?;
    push_often(&mut answers, ",wait", waits)?;
    answers.push_str(",yes")?;
    push_often(&mut answers, ",no", 14)?;
    answers.push_str(",wait,no")?;
    Ok(answers)
}

// On a list of so many keys.
fn check_struck(
    rt: &impl Abort,
    heap: Global,
    scheme: u8,
    keys: u16,
    window: u8,
    remover: u8,
    waits: u32,
    struck: u8,
) -> Result<(), Fail> {
    let mut bytes = schedule(heap, scheme, keys, window)?;
    push_fill(&mut bytes, u32::from(keys))?;
    push_lookups(&mut bytes)?;
    push_removal(&mut bytes, remover, waits, struck)?;
    let answers = struck_answers(heap, u32::from(keys), waits)?;
    assert_eq!(rt;
        replay(heap, bytes.as_slice())?.as_str(),
        numbered(heap, answers.as_str())?.as_str()
    );
    Ok(())
}

// Whichever of the first sixteen cells is removed, exactly one seat begins again. The places of these cells have different slots, so it is so on
// relaxed schemes too. Full with sixteen keys, window 20 and seat 7 is samples/sixteen.schedule.
#[test]
fn sixteen_seats_mark_sixteen_cells(rt: HostRuntime) -> Result<(), Fail> {
    let heap = rt.alloc();
    for scheme in 1..=3u8 {
        for (keys, window) in [(16, 16), (16, 20), (17, 64)] {
            for struck in 0..15u8 {
                check_struck(&rt, heap, scheme, keys, window, 15, 0, struck)?;
            }
        }
        // seat 14 meets fifteen cells from the head, so it waits before it comes to the sixteenth
        for window in [20, 64] {
            check_struck(&rt, heap, scheme, 17, window, 14, 1, 15)?;
        }
    }
    Ok(())
}
