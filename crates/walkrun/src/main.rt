// Reads a schedule from standard input, and prints the lines that answer it.
#![tactic(auto)]

use replay::replay;
use schedule::input::read_schedule;
use std::io;

fn main(rt: HostRuntime) -> io::Result<()> {
    let heap = rt.alloc();
    let bytes = read_schedule(heap, rt.stdin())?;
    let text = replay(heap, bytes.as_slice())?;
    rt.print(text.as_str())
}
