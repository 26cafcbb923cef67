// That a replay gives back the memory that it takes: a program can show it, and no contract says it.
use replay::replay;
use std::alloc::{AllocError, Global};
use std::fs;
use std::test::Fail;

// How many pages of memory this process has: the second number of what Linux tells of it.
fn resident_pages(rt: &HostRuntime) -> Result<u64, Fail> {
    let told = fs::read_to_string(rt, "/proc/self/statm")?;
    let pages = told.split(' ').nth(1).ok_or("no second number")?;
    Ok(pages.parse::<u64>()?)
}

// A setup of 1,008 cells under that scheme, a join, and a hundred inserts in falling order, so that each takes one step.
fn schedule_of_inserts(heap: Global, scheme: u8) -> Result<Vec<u8>, AllocError> {
    let mut bytes = Vec::new(heap);
    bytes.extend_from_slice(&[1, 0, 5, 0, scheme, 3, 240, 64, 0, 2, 1, 0])?;
    for sector in (0..100u8).rev() {
        bytes.extend_from_slice(&[0, 6, 4, 0, 0, 0, 0, sector, 0, 2, 6, 0])?;
    }
    Ok(bytes)
}

fn replay_often(heap: Global, bytes: &[u8], times: u32) -> Result<(), Fail> {
    for _ in 0..times {
        let text = replay(heap, bytes)?;
        if text.is_empty() {
            return Err(Fail::new("no text"));
        }
    }
    Ok(())
}

// Ten thousand replays after some others take no more memory: a leak of 100 bytes in each would be a million bytes. 64 pages are a quarter of that.
#[test]
fn memory_is_given_back(rt: HostRuntime) -> Result<(), Fail> {
    let heap = rt.alloc();
    for scheme in 1..=3u8 {
        let bytes = schedule_of_inserts(heap, scheme)?;
        replay_often(heap, bytes.as_slice(), 100)?;
        let before = resident_pages(&rt)?;
        replay_often(heap, bytes.as_slice(), 10000)?;
        let after = resident_pages(&rt)?;
        assert!(rt;
            after <= before.saturating_add(64),
            "{before} pages before, {after} after"
        );
    }
    Ok(())
}
