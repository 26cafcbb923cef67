// What the caller lends: cells and the anchor.
ghost use Rattle.std.specs.Prelude.{◌≡◌};
ghost use Rattle.marks.specs.Marks.{numbered};
ghost use Rattle.list_law.specs.Call.{cell};
ghost use Rattle.list_cells.specs.Views.{cell_of};

use crate::link::Link;
use basis::bounded::Place;
use keys::key::Key;

/// A cell: a key, the link to the next cell or the end of its chain, and whether it is listed; else it is free. Links are places in the lent cells
/// and no boxes: the firmware has no heap.
#[derive(Clone, Copy, PartialEq, Eq, Debug)]
pub struct Cell<K> {
    pub key: K,
    pub link: Link,
    pub listed: bool,
}

impl<K: Key> Cell<K> {
    /// A cell with that key and flag, linked to a place or, where there is none, at the end of its chain.
    pub fn new(key: K, link: Option<Place>, listed: bool) -> Cell<K>
        ensures { cell_of result ≡ cell key (numbered link) listed }
    {
        Cell {
            key,
            link: Link::from(link),
            listed,
        }
    }
}

/// Where an index begins: how many cells it has, how many cells a window may meet, the first listed cell and the first free one.
#[derive(Clone, Copy, PartialEq, Eq, Debug)]
pub struct Anchor {
    pub count: u16,
    pub window: u8,
    pub head: Option<Place>,
    pub free: Option<Place>,
}
