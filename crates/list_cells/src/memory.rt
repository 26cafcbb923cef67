// The writes of a window: to cells, and to where the two chains begin. Cells and anchor are two parameters and no struct: an index has them as
// fields, and would have to be taken apart for it and put together again.
ghost use Rattle.std.specs.Prelude.{◌≡◌, false, map};
ghost use Rattle.marks.specs.Marks.{numbered};
ghost use Rattle.list_law.specs.Call.{rewritten, linked, flagged, leading_set, freed, removed, inserted};
ghost use Rattle.list_cells.specs.Views.{cell_of, lent_memory, SameSizes};

use crate::cell::{Anchor, Cell};
use crate::link::Link;
use crate::walk::cell_at;
use basis::bounded::Place;
use keys::key::Key;

// The cell at a place is written whole.
fn store<K: Key>(cells: &mut [Cell<K>], place: Place, cell: Cell<K>)
    ensures { map cell_of cells.new ≡ rewritten (map cell_of cells.old) place.number (λ _. cell_of cell) }
{
    // by index: `get_mut` of a slice promises how long it is afterwards, and no element
    let at = place.index();
    if at < cells.len() {
        cells[at] = cell;
    }
}

// The cell at a place gets another link; its key and its flag stay.
fn relink<K: Key>(cells: &mut [Cell<K>], place: Place, link: Option<Place>)
    ensures { map cell_of cells.new ≡ rewritten (map cell_of cells.old) place.number (linked (numbered link)) }
{
    if let Some(cell) = cell_at(cells, place) {
        let key = cell.key;
        let link = Link::from(link);
        let listed = cell.listed;
        store(cells, place, Cell { key, link, listed });
    }
}

// The cell at a place is flagged free; its key and its link stay.
fn unlist<K: Key>(cells: &mut [Cell<K>], place: Place)
    ensures { map cell_of cells.new ≡ rewritten (map cell_of cells.old) place.number (flagged false) }
{
    if let Some(cell) = cell_at(cells, place) {
        let key = cell.key;
        let link = cell.link;
        let listed = false;
        store(cells, place, Cell { key, link, listed });
    }
}

/// The link behind a place, or the head link, is set.
pub fn set_lead<K: Key>(
    cells: &mut [Cell<K>],
    anchor: &mut Anchor,
    lead: Option<Place>,
    link: Option<Place>,
)
    ensures memory { lent_memory cells.new anchor.new ≡ leading_set (numbered lead) (numbered link)
        (lent_memory cells.old anchor.old) }
    ensures sizes { SameSizes anchor.old anchor.new }
{
    match lead {
        None => anchor.head = link,
        Some(place) => relink(cells, place, link),
    }
}

/// The cell at a place is flagged free, and then put at the front of the free chain.
pub fn free_cell<K: Key>(cells: &mut [Cell<K>], anchor: &mut Anchor, place: Place)
    ensures memory { lent_memory cells.new anchor.new ≡ freed place.number (lent_memory cells.old anchor.old) }
    ensures sizes { SameSizes anchor.old anchor.new }
{
    unlist(cells, place);
    relink(cells, place, anchor.free);
    anchor.free = Some(place);
}

/// The cell at a place leaves the list: the link that led to it gets the cell's own, and the cell becomes free.
pub fn unlink<K: Key>(
    cells: &mut [Cell<K>],
    anchor: &mut Anchor,
    lead: Option<Place>,
    place: Place,
    link: Option<Place>,
)
    ensures memory { lent_memory cells.new anchor.new ≡ removed (numbered lead) place.number (numbered link)
        (lent_memory cells.old anchor.old) }
    ensures sizes { SameSizes anchor.old anchor.new }
{
    set_lead(cells, anchor, lead, link);
    free_cell(cells, anchor, place);
}

/// The cell at the front of the free chain, which then goes on at `rest`, is written whole: key, link, listed. Then it is linked to.
pub fn link_in<K: Key>(
    cells: &mut [Cell<K>],
    anchor: &mut Anchor,
    lead: Option<Place>,
    link: Option<Place>,
    key: K,
    place: Place,
    rest: Option<Place>,
)
    ensures memory { lent_memory cells.new anchor.new ≡ inserted (numbered lead) (numbered link) key place.number
        (numbered rest) (lent_memory cells.old anchor.old) }
    ensures sizes { SameSizes anchor.old anchor.new }
{
    anchor.free = rest;
    store(cells, place, Cell::new(key, link, true));
    set_lead(cells, anchor, lead, Some(place));
}
