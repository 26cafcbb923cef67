// Making: the cells are chained up free, the rows and the anchor are set, and all marks are released.
ghost use Rattle.std.specs.Prelude.{◌≡◌, ◌<◌, ◌≤◌, false, map, length, replicate};
ghost use Rattle.marks.specs.Marks.{numbered};
ghost use Rattle.marks.specs.Meaning.{Along};
ghost use Rattle.list_law.specs.Call.{cell, away, Obeys};
ghost use Rattle.list_law.specs.Runs.{chained};
ghost use Rattle.list_law.specs.Making.{makes, releases, Makes};
ghost use Rattle.list_cells.specs.Views.{cell_of, anchor_of};
ghost use Rattle.list_window.specs.Rows.{row_of};
ghost use Rattle.list_window.specs.Lent.{lent_state, SameLent};
ghost use Rattle.basis.specs.Answers.{answer, settled};
ghost use Rattle.list_making.specs.Cases.{making_case};
ghost use Rattle.list_making.specs.Chained.{next_number, fresh};

use basis::bounded::{Place, Seat};
use basis::refusal::Refusal;
use keys::key::Key;
use list_cells::cell::{Anchor, Cell};
use list_window::index::Index;
use list_window::row::{Doing, Row};
use list_window::sizes::sizes_fit;
use marks::scheme::Scheme;

// The link to the cell after place `at`, of so many cells.
fn link_after(at: usize, count: usize) -> Option<Place>
    requires { (at < count) × (count ≤ 1008) }
    ensures { numbered result ≡ next_number at count }
{
    let next = at + 1;
    if next < count {
        Place::try_from(next as u16).ok()
    } else {
        None
    }
}

// Every row is away.
fn clear_rows<K: Key>(rows: &mut [Row<K>])
    ensures { map row_of rows.new ≡ replicate (length rows.old) away }
{
    for row in rows.iter_mut() {
        *row = Row { doing: Doing::Away };
    }
}

// A cell becomes free and gets another link; it keeps its key.
fn freed_cell<K: Key>(given: Cell<K>, link: Option<Place>) -> Cell<K>
    ensures { cell_of result ≡ cell given.key (numbered link) false }
{
    Cell::new(given.key, link, false)
}

// Every cell is free and linked to the next; the keys stay.
fn free_cells<K: Key>(cells: &mut [Cell<K>])
    requires { length cells.old ≤ 1008 }
    ensures { map cell_of cells.new ≡ chained 0 (map cell_of cells.old) }
{
    let count = cells.len();
    for (at, cell) in cells.iter_mut().enumerate() {
        *cell = freed_cell(*cell, link_after(at, count));
    }
}

fn known_seat(number: u16) -> Seat
    requires { number < 16 }
    ensures { result.number ≡ number }
{
    Seat::try_from(number).unwrap()
}

// All sixteen marks are released, one after another.
fn release_all<S: Scheme>(scheme: &mut S)
    ensures { Along (Obeys S.Scheme.table S.Scheme.strict S.Scheme.acts) releases scheme.old scheme.new }
{
    // the sixteen seats are numbers, and no slice
    for number in 0..16u16 {
        scheme.release(known_seat(number));
    }
}

// The anchor of an index that is just made over so many cells.
fn fresh_anchor(count: usize, window: u8) -> Anchor
    requires { count ≤ 1008 }
    ensures { anchor_of result ≡ fresh count window }
{
    Anchor {
        count: count as u16,
        window,
        head: None,
        free: Place::try_from(0).ok(),
    }
}

// Whether the index has sizes that making takes.
fn sizes_right<K: Key, S: Scheme>(index: &Index<'_, K, S>, window: u8) -> bool
    ensures { result ≡ makes (length index.now.cells.now) (length index.now.rows.now) window }
{
    sizes_fit(index.cells.len(), index.rows.len(), window)
}

/// Makes an index over what it is lent: 1 to 1,008 cells, all of which become free, sixteen rows, which become away, a window of 1 to
/// 64, and every mark released. Other sizes are refused with 2, and nothing is altered. It runs before any task does, so it raises no mask.
pub fn make<K: Key, S: Scheme>(index: &mut Index<'_, K, S>, window: u8) -> Result<(), Refusal>
    ensures made { Makes K.Key.below S.Scheme.table S.Scheme.strict S.Scheme.acts (lent_state index.old) window
        (settled result) (lent_state index.new) }
    ensures case { answer (settled result) ≡ making_case (length index.old.cells.now)
        (length index.old.rows.now) window }
    ensures same { SameLent index.old index.new }
{
    let count = index.cells.len();
    if !sizes_right(index, window) {
        return Err(Refusal::WrongSizes);
    }
    free_cells(index.cells);
    clear_rows(index.rows);
    release_all(index.scheme);
    *index.anchor = fresh_anchor(count, window);
    Ok(())
}
