//! A trim of the stores.

ghost use Rattle.std.specs.Prelude.{◌≡◌, map, IfOk, OnOk};
ghost use Rattle.unit_answers.specs.Stores.{setup_of, AreStores};
ghost use Rattle.unit_answers.specs.Done.{IsTrimDone};
ghost use Rattle.unit_answers.specs.inner.Trims.{eviction_of, trimmed_store, entries_at};

use crate::sizes::Sizes;
use cell_store::{CellStore, Key};
use design::Design;
use journal_meaning::Entry;
use journal_text::EntryList;
use std::alloc::Global;
use texts::OutOfMemory;

/// The result of a trim: the entries of each shard, and the stores after it.
#[derive(Drop)]
pub struct TrimDone {
    pub lists: Vec<EntryList>,
    pub stores: Vec<CellStore>,
}

/// The entries of evicted cells.
fn evictions(alloc: Global, keys: &[Key]) -> Result<Vec<Entry>, OutOfMemory>
    ensures { IfOk result (λ entries. entries.items ≡ map eviction_of keys.now) }
{
    let mut entries = Vec::with_capacity(alloc, keys.len())?;
    for key in keys {
        entries.push(Entry::Evicted {
            signal: key.signal,
            start: key.start,
        })?;
    }
    Ok(entries)
}

/// Evicts the least recent cells of a store, until at most this many are left. Returns the entries.
fn trim_store(alloc: Global, most: u32, store: &mut CellStore) -> Result<EntryList, OutOfMemory>
    ensures entries { IfOk result (λ entries. entries ≡ entries_at most store.old) }
    ensures left { OnOk result (store.new ≡ trimmed_store most store.old) }
{
    let keys = store.trim(most)?;
    Ok(EntryList::from_vec(evictions(alloc, &keys)?))
}

/// Evicts the least recent cells of each store, until at most this many are left in it. If memory runs out, the stores are
/// dropped.
pub fn trim_stores(
    alloc: Global,
    design: &Design,
    most: u32,
    sizes: Sizes,
    stores: Vec<CellStore>,
) -> Result<TrimDone, OutOfMemory>
    requires stores { AreStores (setup_of design.now sizes) stores.items }
    ensures { IfOk result (λ done. IsTrimDone (setup_of design.now sizes) most stores.items
        done.lists.items done.stores.items) }
{
    let mut lists = Vec::new(alloc);
    let mut stores = stores;
    for store in stores.iter_mut() {
        lists.push(trim_store(alloc, most, store)?)?;
    }
    Ok(TrimDone { lists, stores })
}
