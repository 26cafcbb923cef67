// Two firmware tasks on one index of wear keys: a host that looks up and inserts, and a cleaner that removes. Each takes its seat as a slip.
#![tactic(auto)]

ghost use Rattle.std.specs.Prelude.{◌≡◌, map, length, Some, MatchResult};
ghost use Rattle.tasks.specs.Stations.{not_opened, RanTasks};

mod account;
mod plan;
mod station;
mod turn;

use crate::account::print_account;
use crate::plan::schedule;
use crate::station::{Closed, Station};
use crate::turn::Line;
use basis::bounded::BankBit;
use basis::refusal::Refusal;
use key_types::wear::Wear;
use list_cells::cell::Cell;
use marks::scheme::Scheme;
use schemes::full::Full;
use schemes::pair::Pair;
use std::io;

// Host and cleaner join an index that is made over the cells, take the turns of the lines, and leave. What the index then keeps is handed
// out. Refused, no turn is taken.
fn run_tasks<S: Scheme + Drop>(
    cells: [Cell<Wear>; 8],
    scheme: S,
    window: u8,
    host: u8,
    cleaner: u8,
    lines: &mut [Line],
) -> Result<Closed<S>, Refusal>
    ensures turns { map (λ (l : Line). l.turn) lines.new ≡ map (λ (l : Line). l.turn) lines.old }
    ensures ran { MatchResult result
        (λ end. RanTasks S.Scheme.table S.Scheme.strict S.Scheme.acts cells scheme window host cleaner lines.new end)
        (λ e. (lines.new ≡ lines.old) × (not_opened (length cells) window host cleaner ≡ Some e)) }
{
    let mut station = Station::open(cells, scheme, window, host, cleaner)?;
    station.play(lines);
    Ok(station.close())
}

// Eight cells, a window of 2, and two banks of marks: seat 4, the host's, is in the first and seat 5, the cleaner's, in the second.
// Whatever happens, every slip is given back before this returns.
fn run(lines: &mut [Line]) -> Result<(), Refusal> {
    let bit = BankBit::try_from(0)?;
    let banks = Pair::new(Full::new(), Full::new(), bit);
    let key = Wear::new(0, 0)?;
    let cell = Cell::new(key, None, false);
    let _closed = run_tasks([cell; 8], banks, 2, 4, 5, lines)?;
    Ok(())
}

fn main(rt: HostRuntime) -> io::Result<()> {
    let mut lines = schedule();
    match run(&mut lines) {
        Ok(()) => {
            print_account(&rt, &lines)?;
            println!(rt; "both slips were given back")
        }
        Err(refusal) => { println!(rt; "not begun: {refusal}") }
    }
}
