//! Entries, and the room for them in a journal.

ghost use Rattle.journal_meaning.specs.declared.Entry.TheVariants as entry;
ghost use Rattle.std.specs.Prelude.{◌≡◌, ◌≤◌, ◌<◌, ◌+◌, ◌*◌, ◌^◌, OnOk, OnErr, vec_len, vec_capacity, ◌∷◌, ◌++◌, [], None, if◌then◌else◌};
ghost use Rattle.valid_intervals.specs.Cells.{cell_for};
ghost use Rattle.cell_store.specs.Recency.{FitsStore, after_put, pushes_out, last_key};
ghost use Rattle.memo_shards.specs.inner.Ends.{after_eviction};

use cell_store::{CellStore, Key};
use journal_meaning::Entry;
use texts::OutOfMemory;
use valid_intervals::{Cell, Point};

/// Takes room for this many entries, beside the two that the end of each claim may need.
pub fn make_room(journal: &mut Vec<Entry>, claims: usize, entries: usize) -> Result<(), OutOfMemory>
    requires { vec_len journal.old + 2 * claims ≤ vec_capacity journal.old }
    ensures items { journal.new.items ≡ journal.old.items }
    ensures len { vec_len journal.new ≡ vec_len journal.old }
    ensures room { OnOk result (vec_len journal.new + 2 * claims + entries ≤ vec_capacity
        journal.new) }
    ensures kept { vec_len journal.new + 2 * claims ≤ vec_capacity journal.new }
{
    let room = claims
        .checked_mul(2)
        .and_then(|ends| ends.checked_add(entries));
    let Some(room) = room else {
        return Err(OutOfMemory);
    };
    journal.reserve(room)?;
    Ok(())
}

/// The entry of a told cell.
pub fn told(q: u32, p: Point, cell: &Cell) -> Entry
    ensures { result ≡ entry.Told q p cell.now }
{
    Entry::Told { q, p, cell: *cell }
}

/// The entry of an eviction, if there was one.
fn record_eviction(journal: &mut Vec<Entry>, evicted: Option<Key>)
    requires { vec_len journal.old < vec_capacity journal.old }
    ensures items { journal.new.items ≡ after_eviction evicted journal.old.items }
    ensures len { vec_len journal.new ≤ vec_len journal.old + 1 }
    ensures capacity { vec_capacity journal.new ≡ vec_capacity journal.old }
{
    if let Some(key) = evicted {
        journal.push_reserved(Entry::Evicted {
            signal: key.signal,
            start: key.start,
        });
    }
}

/// Stores the cell of a point, and records it, after the eviction that made place for it.
pub fn record_fill(
    store: &mut CellStore,
    journal: &mut Vec<Entry>,
    q: u32,
    p: Point,
    cell: &Cell,
) -> Result<(), OutOfMemory>
    requires fits { FitsStore (cell_for p cell.now) store.old.cells }
    requires room { vec_len journal.old + 2 ≤ vec_capacity journal.old }
    ensures store { OnOk result (store.new ≡ after_put store.old (cell_for p cell.now)) }
    ensures items { OnOk result (journal.new.items ≡ after_eviction
        (if pushes_out (cell_for p cell.now) store.old then last_key store.old.cells else None)
        journal.old.items ++ (entry.Filled q p cell.now) ∷ []) }
    ensures len { vec_len journal.new ≤ vec_len journal.old + 2 }
    ensures capacity { vec_capacity journal.new ≡ vec_capacity journal.old }
    ensures err { OnErr result (store.new ≡ store.old) }
    ensures err_items { OnErr result (journal.new.items ≡ journal.old.items) }
{
    let put = store.put(p.signal, *cell)?;
    record_eviction(journal, put.evicted);
    journal.push_reserved(Entry::Filled { q, p, cell: *cell });
    Ok(())
}
