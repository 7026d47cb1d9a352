//! The cells of a store by their slots, in the order of their use.

ghost use Rattle.std.specs.Prelude.{◌≡◌, ℕ, ◌<◌, ◌≤◌, [], None, IfOk, IsSome, OnErr, OnOk, drop, false, length, nat_eq, reverse, take};
ghost use Rattle.std.specs.Int.NonZero.{non_zero_usize_get};
ghost use Rattle.std.specs.Map.{lookup_entry};
ghost use Rattle.cell_store.specs.inner.Notes.{after_notes, cell_in};
ghost use Rattle.lru.specs.LruCache.{lru_cache, last_entry, promoted, put_entries};

use crate::notes::Notes;
use crate::slots::SlotHasher;
use lru::LruCache;
use std::alloc::Global;
use std::hash::BuildHasherDefault;
use std::marker::Model;
use std::num::NonZeroUsize;
use texts::OutOfMemory;
use valid_intervals::SignalCell;

/// The slots, which are small numbers, in the order of their use.
pub type Order = LruCache<u32, (), BuildHasherDefault<SlotHasher>>;

/// Cells by their slots, of which it is known which was used longest ago. The order of the slots is kept only when its other end is
/// asked for: each cell that is put or used is noted by its slot, and these uses are made in the order of the slots, the earliest first,
/// before the least recently used cell is looked at or taken out. So while a store has room for all that comes, no order is kept. The
/// model is a cache of the cells by their slots, with all uses made.
#[derive(Drop)]
pub struct RecentCells {
    // the slots, without the uses that are noted
    order: Order,
    notes: Notes,
    // by its slot, each cell
    cells: Vec<SignalCell>,
    // how many cells there are
    many: usize,
}

impl Model for RecentCells {
    ghost use Rattle.std.specs.Prelude.{ℕ};
    ghost use Rattle.valid_intervals.specs.declared.SignalCell.{SignalCell};
    ghost use Rattle.cell_store.specs.inner.Notes.{after_notes, with_cells, AreRecent};
    ghost use Rattle.lru.specs.LruCache.{LruCache, lru_cache};

    ghost Value = { LruCache ℕ SignalCell };

    ghost view = { λ s. lru_cache (with_cells s.cells.items (after_notes s.order.entries s.notes.noted)) s.order.cap };

    ghost invariant = { λ s. AreRecent (after_notes s.order.entries s.notes.noted) s.cells.items s.notes.slots s.many s.order.cap };
}

impl RecentCells {
    /// No cell, and room for so many.
    pub fn new(alloc: Global, capacity: NonZeroUsize) -> Result<RecentCells, OutOfMemory>
        ensures { IfOk result (λ cells. cells ≡ lru_cache [] (non_zero_usize_get capacity)) }
    {
        let mut order = LruCache::unbounded_with_hasher(alloc, BuildHasherDefault::new())?;
        order.resize(capacity);
        Ok(RecentCells {
            order,
            notes: Notes::new(alloc),
            cells: Vec::new(alloc),
            many: 0,
        })
    }

    /// The number of cells.
    pub fn len(&self) -> usize
        ensures { result ≡ length self.now.entries }
    {
        self.many
    }

    /// The greatest number of cells.
    pub fn cap(&self) -> NonZeroUsize
        ensures { non_zero_usize_get result ≡ self.now.cap }
    {
        self.order.cap()
    }

    /// The cell in this slot is the most recently used one now.
    pub fn promote(&mut self, slot: u32)
        requires there { IsSome (lookup_entry (nat_eq slot) self.old.entries) }
        ensures { self.new ≡ lru_cache (promoted (nat_eq slot) self.old.entries) self.old.cap }
    {
        self.notes.note(slot);
    }

    /// Puts a cell into a slot, as the most recently used one: into an empty slot where there is room, and in a full cache into the slot
    /// of another cell.
    pub fn push(&mut self, slot: u32, x: &SignalCell) -> Result<(), OutOfMemory>
        requires small { slot < 65536 }
        requires empty { length self.old.entries < self.old.cap
            → lookup_entry (nat_eq slot) self.old.entries ≡ None }
        requires held { self.old.cap ≤ length self.old.entries
            → IsSome (lookup_entry (nat_eq slot) self.old.entries) }
        ensures entries { OnOk result (self.new ≡ lru_cache (put_entries nat_eq self.old slot x.now) self.old.cap) }
        ensures err { OnErr result (self.new ≡ self.old) }
    {
        self.notes.take_room(slot)?;
        place(&mut self.cells, slot, x)?;
        self.notes.note(slot);
        if self.many < self.order.cap().get() {
            self.many += 1;
        }
        Ok(())
    }

    /// The slot of the least recently used cell, and the cell.
    pub fn peek_lru(&mut self) -> Result<Option<(u32, SignalCell)>, OutOfMemory>
        ensures unchanged { self.new ≡ self.old }
        ensures last { IfOk result (λ last. last ≡ last_entry self.old.entries) }
    {
        self.notes.put_into(&mut self.order)?;
        let Some((slot, ())) = self.order.peek_lru() else {
            return Ok(None);
        };
        Ok(Some((*slot, self.cells[*slot as usize])))
    }

    /// Takes out the least recently used cells until at most n are left, and returns them with their slots, the least recently used
    /// first.
    pub fn truncate(&mut self, n: usize) -> Result<Vec<(u32, SignalCell)>, OutOfMemory>
        ensures left { OnOk result (self.new ≡ lru_cache (take n self.old.entries) self.old.cap) }
        ensures gone { IfOk result (λ gone. gone.items ≡ reverse (drop n self.old.entries)) }
        ensures err { OnErr result (self.new ≡ self.old) }
    {
        let extra = self.many.saturating_sub(n);
        let mut gone = Vec::with_capacity(*self.order.allocator(), extra)?;
        self.notes.put_into(&mut self.order)?;
        while self.order.len() > n {
            let Some((slot, ())) = self.order.pop_lru() else {
                unreachable!()
            };
            gone.push_reserved((slot, self.cells[slot as usize]));
        }
        self.many = self.order.len();
        Ok(gone)
    }
}

// Puts the cell into its slot.
fn place(cells: &mut Vec<SignalCell>, slot: u32, x: &SignalCell) -> Result<(), OutOfMemory>
    ensures here { OnOk result (cell_in cells.new.items slot ≡ x.now) }
    ensures others { (other : ℕ) → other < length cells.old.items → nat_eq slot other ≡ false → cell_in cells.new.items other ≡ cell_in cells.old.items other }
    ensures cells_stay { OnErr result (cells.new.items ≡ cells.old.items) }
    ensures more { length cells.old.items ≤ length cells.new.items }
    ensures room { OnOk result (slot < length cells.new.items) }
{
    let slot = slot as usize;
    if cells.len() <= slot {
        cells.resize(slot + 1, *x)?;
    }
    cells[slot] = *x;
    Ok(())
}
