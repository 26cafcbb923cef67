// Reads a schedule from standard input, and prints the line that its opening is answered. No call is run.
#![tactic(auto)]

use replay::opening::answer_opening;
use schedule::input::read_schedule;
use std::io;

fn main(rt: HostRuntime) -> io::Result<()> {
    let heap = rt.alloc();
    let bytes = read_schedule(heap, rt.stdin())?;
    let line = answer_opening(heap, bytes.as_slice())?;
    rt.print(line.as_str())
}
