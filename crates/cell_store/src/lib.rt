//! The bounded store of a memo's shard: cells of signals, the most recently used first.
//!
//! A [`CellStore`] holds at most as many cells as its capacity. No two of its cells cover one point. [`CellStore::find`]
//! returns the cell that covers a point, and makes it the most recently used. [`CellStore::put`] stores a cell in front.
//! A new cell in a full store evicts the least recently used one, which [`Put`] names. [`CellStore::trim`] removes cells
//! from the end until few enough are left.
//!
//! The model of a store is its capacity and the list of its cells (`specs/Recency.antt`). Contracts say exactly which list
//! a call leaves. Inside, each cell has a slot, a small number. An index has the end, the value and the slot of each cell by its
//! [`Key`], so that a search reads the index alone. Of the cells of a signal that begin no later than a point, only the last can cover
//! it. The cell in front is tried before the index.
//!
//! In the index the cells of a signal are a list, the latest first, behind a head in a table by the signal's number. The nodes of all
//! lists are in one array. A list has at most 16 nodes. With one cell more, its signal gets a map of its own, into which the list goes, and
//! from then on the signal is searched in this map alone. It gives the map up when the last cell has left it. Up to 512 cells of such a map
//! stand in one array in the order of time: a search halves it, unless the last cell is the one, and a new cell goes to its end or between
//! two others. More are an ordered map. There are at most as many maps as lists of so many cells have room. A signal that can have none
//! keeps its list, and puts further cells into one common ordered map. Signals that have no head, which are those of another residue than
//! the store was made for, and very great numbers, are in the common map from the start. The table has pages of 64 heads, made when they
//! are needed.
//!
//! The kit's `lru` cache, which has the slots, tells which one was used longest ago. It is filled only when it is asked: each use is
//! noted by its slot, and the notes are put into the cache, in their order, when a full store takes a new cell, and at a trim. There is
//! room for two notes of each slot; where it is full, only the last note of each is kept, in place. So a store that has room for all
//! that comes keeps no order. A new cell takes a free slot, or the next number, or in a full store the slot of the cell that it evicts.
//! A `put` or `trim` that fails for lack of memory leaves the store as it was. A `find` takes no memory.
//!
//! With n cells, `find` and `put` take O(log n) steps, whatever the order of the times asked, but that a `put` or an eviction may move up to
//! 6 KB of an array, and the `put` of a 513th cell all of it into the ordered map; and constant time for each note that is put into the
//! cache or thinned out now: those of at most some two n calls. `len`, `capacity`, and a `find` of the most recently used cell take constant
//! time. `trim` takes as much as an eviction for each cell that it removes. The store takes about 20 bytes a cell for the index (12 to 30
//! where the cells of a signal fill its map) and 21 for the cells by slots and their notes, up to twice that as these arrays grow, 4 for
//! each signal of a page, 24 for each 64 signals up to the last that has a cell, and 50 a cell once there is an order.
//!
//! ```text
//! let mut store = CellStore::new(alloc, 3, 1, 0)?;
//! store.put(7, cell)?;                                   // cell has the times 10 to 19
//! store.find(Point { signal: 7, time: 12 })?;            // Some(cell)
//! store.find(Point { signal: 7, time: 20 })?;            // None
//! ```
#![tactic(auto)]

mod heads;
mod index;
mod maps;
mod notes;
mod recent;
mod signal_cells;
mod slots;
mod store;

pub use store::CellStore;

/// The name of a stored cell: a signal has at most one stored cell that begins at a time.
#[derive(Clone, Copy, Debug, PartialEq, Eq, Hash, PartialOrd, Ord)]
pub struct Key {
    pub signal: u32,
    pub start: u32,
}

/// What a [`CellStore::put`] did.
#[derive(Clone, Copy, Debug, PartialEq, Eq)]
pub struct Put {
    /// The evicted cell.
    pub evicted: Option<Key>,
    /// Whether the cell that was put was not stored before.
    pub fresh: bool,
}
