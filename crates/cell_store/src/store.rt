ghost use Rattle.std.specs.Prelude.{◌≡◌, ℕ, ◌-◌, ◌<◌, ◌≤◌, ◌↔◌, [], IsTrue, List, not, map, find, drop, reverse, take, option_map, unwrap_or, IfNone, IfOk, IfSome, None, OnErr, OnOk, length, nat_lt, slice_get, if◌then◌else◌};
ghost use Rattle.cell_store.specs.inner.Maps.{place_of};
ghost use Rattle.valid_intervals.specs.declared.SignalCell.{SignalCell};
ghost use Rattle.valid_intervals.specs.Spans.{IsSpan};
ghost use Rattle.valid_intervals.specs.Cells as cells;
ghost use Rattle.valid_intervals.specs.Cells.{cell_for, to_front};
ghost use Rattle.cell_store.specs.Recency.{contents, with_cells, key_of, last_key, pushes_out, after_put, FitsStore, IsKnownStore};
ghost use Rattle.valid_intervals.specs.Cells.{stored_at, is_stored};
ghost use Rattle.cell_store.specs.inner.Index.{place_at, slot_and_cell, IsFront, IsInFront, IsPlaced};
ghost use Rattle.lru.specs.LruCache.{last_entry as last_of};

use crate::index::{CellIndex, Place};
use crate::recent::RecentCells;
use crate::{Key, Put};
use std::alloc::Global;
use std::marker::Model;
use std::num::NonZeroUsize;
use texts::OutOfMemory;
use valid_intervals::{Cell, Point, SignalCell, Span};

/// The greatest capacity of a store.
pub const MOST_CELLS: u32 = 65_536;

/// Cells of signals, the most recently used first, at most as many as the capacity. Two cells of a signal have no common time.
#[derive(Drop)]
pub struct CellStore {
    cache: RecentCells,
    index: CellIndex,
    // slots that no cell has, left by trims
    free: Vec<u32>,
    // the most recently used cell and its slot, where they are known
    front: Option<(u32, SignalCell)>,
}

impl Model for CellStore {
    ghost use Rattle.cell_store.specs.Recency.{Contents, contents};
    ghost use Rattle.cell_store.specs.inner.Maps.{place_of};
    ghost use Rattle.cell_store.specs.inner.Index.{cells_of, IsFront, IsSoundStore};

    ghost Value = { Contents };

    ghost view = { λ s. contents s.cache.cap (cells_of s.cache.entries) };

    ghost invariant = { λ s. IsSoundStore (place_of s.index) s.cache.entries s.free.items s.cache.cap × IsFront s.front s.cache.entries };
}

impl CellStore {
    /// An empty store with room for `capacity` cells, mostly of signals that leave this residue when they are divided by `stride`: the cells
    /// of other signals cost a longer search.
    pub fn new(
        alloc: Global,
        capacity: u32,
        stride: u32,
        residue: u32,
    ) -> Result<CellStore, OutOfMemory>
        requires some { 0 < capacity }
        requires most { capacity ≤ MOST_CELLS }
        ensures { IfOk result (λ store. store ≡ contents capacity []) }
    {
        let cells = NonZeroUsize::new(capacity as usize).unwrap();
        Ok(CellStore {
            cache: RecentCells::new(alloc, cells)?,
            index: CellIndex::new(alloc, capacity, stride, residue),
            free: Vec::new(alloc),
            front: None,
        })
    }

    /// The law of every store: it has room for a cell, no more cells than there is room for, and no point is covered by two of them. A
    /// shard needs it to begin legal over the store.
    pub fn facts(&self)
        ensures { IsKnownStore self.now }
    {
        // A proof knows the invariant of a value whose field the body reads.
        let _ = &self.cache;
    }

    /// The number of stored cells.
    pub fn len(&self) -> u32
        ensures { result ≡ length self.now.cells }
    {
        self.cache.len() as u32
    }

    /// Whether the store has no cell.
    pub fn is_empty(&self) -> bool
        ensures { IsTrue result ↔ (self.now.cells ≡ []) }
    {
        self.cache.len() == 0
    }

    /// The greatest number of cells.
    pub fn capacity(&self) -> u32
        ensures { result ≡ self.now.capacity }
    {
        self.cache.cap().get() as u32
    }

    /// The stored cell that covers the point. It becomes the most recently used.
    pub fn find(&mut self, p: Point) -> Option<Cell>
        ensures found { result ≡ option_map (λ x. x.cell) (stored_at self.old.cells p) }
        ensures used { IfSome result (λ cell. self.new ≡ with_cells self.old
            (to_front (cell_for p cell) self.old.cells)) }
        ensures unchanged { IfNone result (self.new ≡ self.old) }
    {
        if let Some(cell) = front_covering(self.front, p) {
            return Some(cell);
        }
        let Some((slot, cell)) = covering_cell(&self.index, p) else {
            return None;
        };
        self.cache.promote(slot);
        self.front = Some((slot, cell_found(p, &cell)));
        Some(cell)
    }

    /// Puts a cell in front. A cell that is stored already moves there. A new cell in a full store replaces the least recently used one.
    pub fn put(&mut self, signal: u32, cell: Cell) -> Result<Put, OutOfMemory>
        requires { FitsStore (record { signal = signal; cell = cell }) self.old.cells }
        ensures cells { let x : SignalCell = record { signal = signal; cell = cell } in
            OnOk result (self.new ≡ after_put self.old x) }
        ensures fresh { let x : SignalCell = record { signal = signal; cell = cell } in
            IfOk result (λ put. put.fresh ≡ not (is_stored x self.old.cells)) }
        ensures evicted { let x : SignalCell = record { signal = signal; cell = cell } in
            IfOk result (λ put. put.evicted ≡ (if pushes_out x self.old then last_key self.old.cells
            else None)) }
        ensures err { OnErr result (self.new ≡ self.old) }
    {
        let x = SignalCell { signal, cell };
        let key = cell_key(&x);
        let last = last_if_full(&mut self.cache)?;
        let slot = slot_for_new(last, &self.free, self.cache.len() as u32);
        if let Some(held) = self.index.insert_if_absent(key, cell_place(&x, slot))? {
            self.cache.promote(held);
            self.front = Some((held, x));
            return Ok(Put {
                evicted: None,
                fresh: false,
            });
        }
        let Ok(()) = self.cache.push(slot, &x) else {
            self.index.remove(&key);
            return Err(OutOfMemory);
        };
        self.front = Some((slot, x));
        match last {
            Some((_, evicted)) => {
                self.index.remove(&evicted);
                Ok(Put {
                    evicted: Some(evicted),
                    fresh: true,
                })
            }
            None => {
                self.free.pop();
                Ok(Put {
                    evicted: None,
                    fresh: true,
                })
            }
        }
    }

    /// Removes the least recently used cells until at most `n` are left. Returns their keys, the least recently used first.
    pub fn trim(&mut self, n: u32) -> Result<Vec<Key>, OutOfMemory>
        ensures cells { OnOk result (self.new ≡ with_cells self.old (take n self.old.cells)) }
        ensures keys { IfOk result (λ keys. keys.items ≡ reverse
            (map key_of (drop n self.old.cells))) }
        ensures err { OnErr result (self.new ≡ self.old) }
    {
        let left = n as usize;
        let extra = self.cache.len().saturating_sub(left);
        let mut keys = Vec::with_capacity(*self.free.allocator(), extra)?;
        self.free.reserve(extra)?;
        let gone = self.cache.truncate(left)?;
        self.front = None;
        for (slot, x) in gone.as_slice() {
            let old = cell_key(x);
            self.index.remove(&old);
            keys.push_reserved(old);
            self.free.push_reserved(*slot);
        }
        Ok(keys)
    }
}

// The most recently used cell, if it is known and covers the point. Its use leaves the order as it is.
fn front_covering(front: Option<(u32, SignalCell)>, p: Point) -> Option<Cell>
    ensures { (entries : List (ℕ × SignalCell)) → IsFront front entries → IfSome result (IsInFront entries p) }
{
    let (_, x) = front?;
    if x.covers(p) { Some(x.cell) } else { None }
}

// The cell that covers the point, and its slot. Of the cells of its signal that begin no later, only the last can cover it.
fn covering_cell(index: &CellIndex, p: Point) -> Option<(u32, Cell)>
    ensures { (entries : List (ℕ × SignalCell)) → IsPlaced (place_of index.now) entries
        → result ≡ option_map slot_and_cell (find (λ e. cells.covers p e.1) entries) }
{
    let (start, place) = index.last_at(p)?;
    if p.time < place.end {
        let span = Span::new(start, place.end)?;
        let cell = Cell {
            span,
            value: place.value,
        };
        Some((place.slot as u32, cell))
    } else {
        None
    }
}

// The cell that was found for the point, with its signal.
fn cell_found(p: Point, cell: &Cell) -> SignalCell
    ensures { result ≡ cell_for p cell.now }
{
    SignalCell {
        signal: p.signal,
        cell: *cell,
    }
}

// The slot and the key of the least recently used cell of a full cache. Where there is room, none.
fn last_if_full(cache: &mut RecentCells) -> Result<Option<(u32, Key)>, OutOfMemory>
    ensures unchanged { cache.new ≡ cache.old }
    ensures last { IfOk result (λ last. last ≡ (if nat_lt (length cache.new.entries) cache.new.cap then None
        else option_map (λ e. (e.0, key_of e.1)) (last_of cache.new.entries))) }
{
    if cache.len() < cache.cap().get() {
        return Ok(None);
    }
    let last = cache.peek_lru()?;
    Ok(last.map(|(slot, x)| (slot, cell_key(&x))))
}

// The slot of a new cell: that of the last cell, where one is given, or else the last of the free slots, or else the first that was never used.
fn slot_for_new(last: Option<(u32, Key)>, free: &[u32], many: u32) -> u32
    ensures { result ≡ unwrap_or (option_map (λ e. e.0) last) (unwrap_or (slice_get free.now (length free.now - 1)) many) }
{
    match (last, free.last()) {
        (Some((slot, _)), _) => slot,
        (None, Some(slot)) => *slot,
        (None, None) => many,
    }
}

fn cell_key(x: &SignalCell) -> Key
    ensures key { result ≡ key_of x.now }
    ensures span { IsSpan x.now.cell.span }
{
    Key {
        signal: x.signal,
        start: x.cell.span.start(),
    }
}

fn cell_place(x: &SignalCell, slot: u32) -> Place
    requires { slot < 65536 }
    ensures { result ≡ place_at (slot, x.now) }
{
    Place {
        end: x.cell.span.end(),
        slot: slot as u16,
        value: x.cell.value,
    }
}
