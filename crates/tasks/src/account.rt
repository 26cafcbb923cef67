// The account of the turns, as text.
use crate::turn::{Ask, Line, Seen, Task};
use basis::answer::Answer;
use basis::bounded::Place;
use basis::refusal::Refusal;
use key_types::wear::Wear;
use list_cells::cell::Cell;
use std::{io, iter};

// Where a window began, and how many cells it might meet.
fn print_window(rt: &HostRuntime, task: Task, seen: Seen) -> io::Result<()> {
    match seen.before.of(task) {
        None => print!(rt; "{task:<8} step from the head")?,
        Some(place) => print!(rt; "{task:<8} step from place {place}")?,
    }
    match seen.width {
        1 => print!(rt; ", at most 1 cell"),
        width => print!(rt; ", at most {width} cells"),
    }
}

// A step: its window, and what was answered and marked. Where the task had nothing to do there was no window.
fn print_step(rt: &HostRuntime, task: Task, seen: Seen) -> io::Result<()> {
    let answer = seen.answer;
    if answer == Answer::Refused(Refusal::NotRunning) {
        return println!(rt; "{task:<8} step: {answer}");
    }
    print_window(rt, task, seen)?;
    print!(rt; ": {answer}")?;
    match seen.after.of(task) {
        None => println!(rt; ""),
        Some(place) => println!(rt; " (marked place {place})"),
    }
}

fn print_turn(rt: &HostRuntime, task: Task, ask: Ask, seen: Seen) -> io::Result<()> {
    let answer = seen.answer;
    match ask {
        Ask::Begin { kind, target } => {
            let (count, block) = (target.count(), target.block());
            println!(rt; "{task:<8} begin {kind} {count}/{block}: {answer}")
        }
        Ask::Step => print_step(rt, task, seen),
        Ask::Abandon => println!(rt; "{task:<8} abandon: {answer}"),
    }
}

// A mark that the turn of one task took from the other.
fn print_struck(rt: &HostRuntime, task: Task, seen: Seen) -> io::Result<()> {
    let other = task.other();
    match (seen.before.of(other), seen.after.of(other)) {
        (Some(place), None) => println!(rt;
            "         the mark of the {other} on place {place} is struck"
        ),
        _ => Ok(()),
    }
}

// The cell at a place, with the place.
fn placed(cells: &[Cell<Wear>], place: Place) -> Option<(Place, Cell<Wear>)> {
    let cell = cells.get(place.index())?;
    Some((place, *cell))
}

// The keys from the head on, each with the place of its cell.
fn print_list(rt: &HostRuntime, cells: &[Cell<Wear>], head: Option<Place>) -> io::Result<()> {
    print!(rt; "         list:")?;
    let first = head.and_then(|place| placed(cells, place));
    let listed = iter::successors(first, |(_, cell)| {
        cell.link.place().and_then(|place| placed(cells, place))
    });
    for (place, cell) in listed.take(cells.len()) {
        let (count, block) = (cell.key.count(), cell.key.block());
        print!(rt; " {count}/{block} in {place}")?;
    }
    println!(rt; "")
}

fn count_listed(cells: &[Cell<Wear>]) -> usize {
    cells.iter().filter(|cell| cell.listed).count()
}

// Each turn: who asked what, where a step began and how many cells it might meet, what was answered and marked; and the list after each change.
pub(crate) fn print_account(rt: &HostRuntime, lines: &[Line]) -> io::Result<()> {
    let mut listed = 0;
    for line in lines {
        let task = line.turn.task;
        if let Some(seen) = line.seen {
            print_turn(rt, task, line.turn.ask, seen)?;
            print_struck(rt, task, seen)?;
            let now_listed = count_listed(&seen.cells);
            if now_listed != listed {
                print_list(rt, &seen.cells, seen.head)?;
            }
            listed = now_listed;
        }
    }
    Ok(())
}
