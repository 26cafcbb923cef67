// The walk of a window along the links.
ghost use Rattle.std.specs.Prelude.{◌≡◌, pred, ◌<◌, ◌≤◌, ◌&&◌, map, length, Some, None};
ghost use Rattle.std.specs.List.{slice_get};
ghost use Rattle.marks.specs.Marks.{numbered};
ghost use Rattle.list_law.specs.Call.{met, walk, walked, resumed};
ghost use Rattle.list_cells.specs.Behind.{behind_at};
ghost use Rattle.list_cells.specs.Links.{place_named};
ghost use Rattle.list_cells.specs.Views.{cell_of, found_of, met_of};

use crate::cell::Cell;
use basis::bounded::Place;
use keys::key::Key;

/// What a link leads to, for a window on its way to a target. `lead` and `link` often go together and are no struct: in each case the link is
/// another one. Where it leads to no cell, or to a free one, a walk gives none of these.
#[derive(Clone, Copy, PartialEq, Eq, Debug)]
pub enum Met {
    // A cell whose key is below the target.
    Passed {
        place: Place,
        link: Option<Place>,
    },
    // The target, its link, and the place before; none is the head.
    Present {
        lead: Option<Place>,
        place: Place,
        link: Option<Place>,
    },
    // The target is missing: the place before, and the link that led on from there.
    Absent {
        lead: Option<Place>,
        link: Option<Place>,
    },
}

/// The cell at a place, if there is one.
pub fn cell_at<K: Key>(cells: &[Cell<K>], place: Place) -> Option<&Cell<K>>
    ensures { found_of result ≡ slice_get (map cell_of cells.now) place.number }
{
    cells.get(place.index())
}

// What the cell at a place is to a walk that was led there.
fn judge<K: Key>(cell: &Cell<K>, target: K, lead: Option<Place>, place: Place) -> Option<Met>
    ensures { met_of result ≡ met K.Key.below target (numbered lead) place.number (Some (cell_of cell.now)) }
{
    let link = cell.link.place();
    if !cell.listed {
        return None;
    }
    if cell.key.is_below(target) {
        return Some(Met::Passed { place, link });
    }
    if target.is_below(cell.key) {
        let link = Some(place);
        return Some(Met::Absent { lead, link });
    }
    Some(Met::Present { lead, place, link })
}

// Whether a walk to the target goes on behind this cell: it is listed, and its key is below the target.
fn passes<K: Key>(cell: &Cell<K>, target: K) -> bool
    ensures { result ≡ (cell.now.listed && K.Key.below cell.now.key target) }
{
    cell.listed && cell.key.is_below(target)
}

// The walk behind a cell that it passed, at the place `lead`: links followed past up to `more` cells, where the window ends. `at` is the same place as a
// wide number: where the place alone goes along, each turn widens it anew, on the way from one load to the next.
#[inline(always)]
fn walk_on<K: Key>(cells: &[Cell<K>], target: K, more: usize, lead: Place) -> Option<Met>
    requires { lead.number < length cells.now }
    ensures { met_of result ≡ behind_at K.Key.below (map cell_of cells.now) target more lead.number }
{
    let mut lead = lead;
    let mut at = lead.index();
    // the room of a window is a number, and no slice
    for _passed in 0..more {
        let Some(place) = cells[at].link.place() else {
            return Some(Met::Absent {
                lead: Some(lead),
                link: None,
            });
        };
        let next = cell_at(cells, place)?;
        if !passes(next, target) {
            return judge(next, target, Some(lead), place);
        }
        lead = place;
        at = place.index();
    }
    Some(Met::Passed {
        place: lead,
        link: cells[at].link.place(),
    })
}

// The walk of a window from the head.
#[inline(always)]
fn walk_from_head<K: Key>(
    cells: &[Cell<K>],
    head: Option<Place>,
    target: K,
    room: usize,
) -> Option<Met>
    ensures { met_of result ≡ walk K.Key.below (map cell_of cells.now) target room None (numbered head) }
{
    let Some(place) = head else {
        return Some(Met::Absent {
            lead: None,
            link: None,
        });
    };
    let cell = cell_at(cells, place)?;
    if passes(cell, target) {
        walk_on(cells, target, room, place)
    } else {
        judge(cell, target, None, place)
    }
}

// The walk of a window that is so many cells wide, from behind a marked cell, which must be a listed one.
#[inline(always)]
fn walk_from_mark<K: Key>(cells: &[Cell<K>], target: K, width: usize, place: Place) -> Option<Met>
    requires { 1 ≤ width }
    ensures { met_of result ≡
        resumed K.Key.below (map cell_of cells.now) target (pred width) place.number
        (slice_get (map cell_of cells.now) place.number) }
{
    let cell = cell_at(cells, place)?;
    if cell.listed {
        walk_on(cells, target, width, place)
    } else {
        None
    }
}

/// The walk of a window that is so many cells wide: from behind the marked cell, which must be a listed one, or from the head. It ends at the last of the
/// cells that it may meet.
#[inline(always)]
pub fn walk_from<K: Key>(
    cells: &[Cell<K>],
    head: Option<Place>,
    target: K,
    width: u8,
    mark: Option<Place>,
) -> Option<Met>
    requires { 1 ≤ width }
    ensures { met_of result ≡
        walked K.Key.below (map cell_of cells.now) (numbered head) target (pred width) (numbered mark) }
{
    let width = usize::from(width);
    let Some(place) = mark else {
        return walk_from_head(cells, head, target, width - 1);
    };
    walk_from_mark(cells, target, width, place)
}
