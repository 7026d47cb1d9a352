//! Counts of entries and of cells.

ghost use Rattle.std.specs.Prelude.{◌≡◌, length, sum_by, IfSome};
ghost use Rattle.journal_meaning.specs.Counts.{count};
ghost use Rattle.session_meaning.specs.Session as session;
ghost use Rattle.session_loop.specs.inner.Desks as desks;
ghost use Rattle.session_loop.specs.inner.Desks.{batches_in, IsCounted};

use crate::desk::Counts;
use cell_store::CellStore;
use journal_meaning::Entry;
use journal_text::{EntryList, SectionKind};

fn is_fill(entry: &Entry) -> bool
    ensures { result ≡ session.is_fill entry.now }
{
    matches!(entry, Entry::Filled { .. })
}

fn is_eviction(entry: &Entry) -> bool
    ensures { result ≡ session.is_eviction entry.now }
{
    matches!(entry, Entry::Evicted { .. })
}

/// How many fills there are, and how many evictions.
#[derive(Clone, Copy)]
struct Tally {
    fills: u64,
    evictions: u64,
}

/// The fills and evictions of these entries.
fn tally_of(entries: &[Entry]) -> Tally
    ensures fills { result.fills ≡ count session.is_fill entries.now }
    ensures evictions { result.evictions ≡ count session.is_eviction entries.now }
{
    let mut fills = 0u64;
    let mut evictions = 0u64;
    for entry in entries {
        fills += u64::from(is_fill(entry));
        evictions += u64::from(is_eviction(entry));
    }
    Tally { fills, evictions }
}

/// The fills and evictions of all lists, if their sums are numbers.
fn tally_all(lists: &[EntryList]) -> Option<Tally>
    ensures fills { IfSome result (λ all. all.fills ≡ sum_by (count session.is_fill) lists.now) }
    ensures evictions { IfSome result (λ all. all.evictions ≡ sum_by (count session.is_eviction)
        lists.now) }
{
    let mut fills = 0u64;
    let mut evictions = 0u64;
    for list in lists {
        let more = tally_of(list.as_slice());
        fills = fills.checked_add(more.fills)?;
        evictions = evictions.checked_add(more.evictions)?;
    }
    Some(Tally { fills, evictions })
}

fn batches_of(kind: SectionKind) -> u64
    ensures { result ≡ batches_in kind }
{
    match kind {
        SectionKind::Batch => 1,
        SectionKind::Trim | SectionKind::Held => 0,
    }
}

/// The lists of a section whose entries are counted: those of the session's own memo.
fn counted_lists(kind: SectionKind, lists: &[EntryList]) -> &[EntryList]
    ensures { result.now ≡ desks.counted_lists kind lists.now }
{
    match kind {
        SectionKind::Batch | SectionKind::Trim => lists,
        SectionKind::Held => &[],
    }
}

/// One section more, unless the counts are too great for their types.
pub fn count_section(counts: Counts, kind: SectionKind, lists: &[EntryList]) -> Option<Counts>
    ensures { IfSome result (λ later. IsCounted counts kind lists.now later) }
{
    let tally = tally_all(counted_lists(kind, lists))?;
    Some(Counts {
        sections: counts.sections.checked_add(1)?,
        batches: counts.batches.checked_add(batches_of(kind))?,
        fills: counts.fills.checked_add(tally.fills)?,
        evictions: counts.evictions.checked_add(tally.evictions)?,
    })
}

/// How many entries there are, if that is a number.
pub fn entries_in(lists: &[EntryList]) -> Option<u64>
    ensures { IfSome result (λ n. n ≡ sum_by length lists.now) }
{
    let mut entries = 0u64;
    for list in lists {
        entries = entries.checked_add(list.as_slice().len() as u64)?;
    }
    Some(entries)
}

/// How many cells the stores have, if that is a number.
pub fn cells_in(stores: &[CellStore]) -> Option<u64>
    ensures { IfSome result (λ n. n ≡ sum_by (λ store. length store.cells) stores.now) }
{
    let mut cells = 0u64;
    for store in stores {
        cells = cells.checked_add(store.len() as u64)?;
    }
    Some(cells)
}
