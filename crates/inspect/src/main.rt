// Reads a schedule from standard input, and prints each record decoded with its offset, and where and why reading ended.
#![tactic(auto)]

use schedule::contents::read_whole;
use schedule::input::read_schedule;
use std::io;

fn main(rt: HostRuntime) -> io::Result<()> {
    let heap = rt.alloc();
    let bytes = read_schedule(heap, rt.stdin())?;
    let contents = read_whole(heap, bytes.as_slice())?;
    for (index, part) in contents.parts.iter().enumerate() {
        let number = index.saturating_add(1);
        let offset = part.offset;
        let content = part.content;
        println!(rt; "record {number} at offset {offset}: {content}")?;
    }
    let stop = contents.stop;
    match contents.refusal {
        None => println!(rt; "the end, at offset {stop}"),
        Some(refusal) => {
            let number = u8::from(refusal);
            println!(rt; "refused {number} ({refusal}), at offset {stop}")
        }
    }
}
