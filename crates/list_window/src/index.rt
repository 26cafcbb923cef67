// What a caller lends to an index.
ghost use Rattle.std.specs.Prelude.{◌≡◌};
ghost use Rattle.list_window.specs.Lent.{Over};

use crate::row::Row;
use keys::key::Key;
use list_cells::cell::{Anchor, Cell};
use marks::scheme::Scheme;

/// An index: the cells and rows, the anchor and the marks that it is lent. Whatever a function does to an index stands in that memory once
/// the index is let go. The mask is no part of it: it belongs to the processor, and each call has a clause on its level.
#[derive(Drop)]
pub struct Index<'a, K, S> {
    pub cells: &'a mut [Cell<K>],
    pub rows: &'a mut [Row<K>],
    pub anchor: &'a mut Anchor,
    pub scheme: &'a mut S,
}

impl<'a, K: Key, S: Scheme> Index<'a, K, S> {
    /// The index over what is lent here.
    pub fn over(
        cells: &'a mut [Cell<K>],
        rows: &'a mut [Row<K>],
        anchor: &'a mut Anchor,
        scheme: &'a mut S,
    ) -> Index<'a, K, S>
        ensures { Over cells.entry rows.entry anchor.entry scheme.entry result }
    {
        Index {
            cells,
            rows,
            anchor,
            scheme,
        }
    }
}
