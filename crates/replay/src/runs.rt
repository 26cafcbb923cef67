// The calls of a schedule, run on an index of their own.
ghost use Rattle.std.specs.Prelude.{◌≡◌, true, false, map, length, IfOk, MatchResult};
ghost use Rattle.basis.specs.declared.refusal.Refusal.TheVariants.{WrongSizes};
ghost use Rattle.list_law.specs.Making.{makes};
ghost use Rattle.list_driver.specs.Asks.{ask_of};
ghost use Rattle.list_cells.specs.Views.{cell_of};
ghost use Rattle.replay.specs.Answers.{blank};
ghost use Rattle.replay.specs.Runs.{MadeAndRun, Answered};

use basis::answer::Answer;
use basis::mask::Mask;
use basis::refusal::Refusal;
use key_types::sector::Sector;
use list_cells::cell::{Anchor, Cell};
use list_driver::driver::{Ask, run_calls};
use list_window::index::Index;
use list_window::row::{Doing, Row};
use marks::scheme::Scheme;
use records::record::SchemeName;
use schemes::full::Full;
use schemes::owner::Owner;
use schemes::version::Version;
use std::alloc::{AllocError, Global};

// So many cells, with nothing in them. It is called and not inlined: once for a schedule.
#[inline(never)]
fn blank_cells(heap: Global, count: u16) -> Result<Vec<Cell<Sector>>, AllocError>
    ensures { IfOk result (λ v. map cell_of v.items ≡ blank count) }
{
    let blank = Cell::new(Sector { number: 0 }, None, false);
    Ok(vec![in heap; blank; usize::from(count)]?)
}

// Runs the calls on an index made over these cells, if making takes their sizes. It is called and not inlined, so that the run over each scheme is
// compiled by itself.
#[inline(never)]
fn run_over<S: Scheme>(
    scheme: &mut S,
    cells: &mut [Cell<Sector>],
    window: u8,
    asks: &[Ask<Sector>],
    answers: &mut [Answer],
) -> Result<(), Refusal>
    requires { length asks.now ≡ length answers.old }
    ensures { MatchResult result
        (λ _. (makes (length cells.old) 16 window ≡ true) ×
        MadeAndRun S.Scheme.table S.Scheme.strict S.Scheme.acts (map cell_of cells.old) window scheme.old
        (map ask_of asks.now) answers.new)
        (λ e. (makes (length cells.old) 16 window ≡ false) × (e ≡ WrongSizes)) }
{
    let mut rows = [Row { doing: Doing::Away }; 16];
    let mut anchor = Anchor {
        count: 0,
        window: 0,
        head: None,
        free: None,
    };
    let mut mask = Mask { level: 0 };
    let mut index = Index::over(cells, &mut rows, &mut anchor, scheme);
    run_calls(&mut index, &mut mask, window, asks, answers)?;
    Ok(())
}

// The answers of the calls on an index of so many cells with that window, over the scheme; refused where making refuses these sizes. Two Results,
// one in the other: `?` passes on that memory ran out, and a refusal is answered.
#[inline(never)]
fn answers_over<S: Scheme>(
    heap: Global,
    scheme: &mut S,
    count: u16,
    window: u8,
    asks: &[Ask<Sector>],
) -> Result<Result<Vec<Answer>, Refusal>, AllocError>
    ensures { IfOk result (λ r. MatchResult r
        (λ v. (makes count 16 window ≡ true) ×
        MadeAndRun S.Scheme.table S.Scheme.strict S.Scheme.acts (blank count) window scheme.old
        (map ask_of asks.now) v.items)
        (λ e. (makes count 16 window ≡ false) × (e ≡ WrongSizes))) }
{
    let mut cells = blank_cells(heap, count)?;
    let mut answers = vec![in heap; Answer::Ok; asks.len()]?;
    let run = run_over(
        scheme,
        cells.as_mut_slice(),
        window,
        asks,
        answers.as_mut_slice(),
    );
    if let Err(refusal) = run {
        return Ok(Err(refusal));
    }
    Ok(Ok(answers))
}

/// The same over the scheme of that name: full, owner with all slots nobody, version with counters from 0.
pub fn answers_by(
    heap: Global,
    name: SchemeName,
    count: u16,
    window: u8,
    asks: &[Ask<Sector>],
) -> Result<Result<Vec<Answer>, Refusal>, AllocError>
    ensures { IfOk result (λ r. MatchResult r
        (λ v. Answered name count window (map ask_of asks.now) v.items)
        (λ e. (makes count 16 window ≡ false) × (e ≡ WrongSizes))) }
{
    match name {
        SchemeName::Full => answers_over(heap, &mut Full::new(), count, window, asks),
        SchemeName::Owner => answers_over(heap, &mut Owner::new(), count, window, asks),
        SchemeName::Version => answers_over(heap, &mut Version::new(0), count, window, asks),
    }
}
