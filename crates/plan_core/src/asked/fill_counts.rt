//! How many points each query of a batch filled.

ghost use Rattle.std.specs.Prelude.{◌≡◌, ◌++◌, ◌∷◌, [], ℕ, ◌+◌, min, List, IfOk, OnOk};
ghost use Rattle.std.specs.BTreeMap.{get};
ghost use Rattle.std.specs.Ordering.{nat_cmp};
ghost use Rattle.journal_meaning.specs.declared.Entry.{Entry as EntryRecord};
ghost use Rattle.plan_core.specs.asked.FillCounts.{count_in, fills_in, fills_in_all, one_more_for, HasCounted, HaveCounted};
ghost use Rattle.plan_core.specs.asked.Memos.{entries_of};

use demand_points::BatchName;
use journal_meaning::Entry;
use memo_shards::Shard;
use std::alloc::Global;
use std::collections::BTreeMap;
use texts::OutOfMemory;

/// How many points queries filled, by the numbers of the queries; at most 4,294,967,295 of each. Entries for one query mostly stand
/// together, so what the last query fills is counted apart, and the map is searched once where the query changes.
#[derive(Drop)]
pub struct FillCounts {
    by_query: BTreeMap<u32, u32>,
    /// The last query.
    number: u32,
    /// How many points it filled that the map does not count.
    count: u32,
}

impl FillCounts {
    /// No point is filled.
    fn new(alloc: Global) -> FillCounts
        ensures { HasCounted [] result }
    {
        FillCounts {
            by_query: BTreeMap::new(alloc),
            number: 0,
            count: 0,
        }
    }

    /// How many points the query with this number filled, as the map counts them.
    fn in_map(&self, number: u32) -> u32
        ensures { result ≡ count_in (get nat_cmp self.now.by_query number) }
    {
        match self.by_query.get(&number) {
            Some(count) => *count,
            None => 0,
        }
    }

    /// How many points the query with this number filled.
    fn of(&self, number: u32) -> u32
        ensures { result ≡ fills_in self.now number }
    {
        let in_map = self.in_map(number);
        if number == self.number {
            in_map.saturating_add(self.count)
        } else {
            in_map
        }
    }

    /// Adds to the map what is counted apart.
    fn keep_last(&mut self) -> Result<(), OutOfMemory>
        ensures { OnOk result ((n : ℕ) → count_in (get nat_cmp self.new.by_query n) ≡ fills_in
            self.old n) }
    {
        if let Some(count) = self.by_query.get_mut(&self.number) {
            *count = count.saturating_add(self.count);
            return Ok(());
        }
        self.by_query.insert(self.number, self.count)?;
        Ok(())
    }

    /// Counts a point that the query with this number filled.
    fn add(&mut self, number: u32) -> Result<(), OutOfMemory>
        ensures { OnOk result ((n k : ℕ) → fills_in self.old n ≡ min k 4294967295
            → fills_in self.new n ≡ min (k + one_more_for number n) 4294967295) }
    {
        if number != self.number {
            self.keep_last()?;
            self.number = number;
            self.count = 0;
        }
        self.count = self.count.saturating_add(1);
        Ok(())
    }

    /// Counts an entry, if it is a fill.
    fn note(&mut self, entry: &Entry) -> Result<(), OutOfMemory>
        ensures { (es : List EntryRecord) → HasCounted es self.old
            → OnOk result (HasCounted (es ++ entry.now ∷ []) self.new) }
    {
        match entry.filled() {
            Some((q, _, _)) => self.add(q),
            None => Ok(()),
        }
    }

    /// Counts the fills among entries.
    fn note_all(&mut self, entries: &[Entry]) -> Result<(), OutOfMemory>
        ensures { (es : List EntryRecord) → HasCounted es self.old
            → OnOk result (HasCounted (es ++ entries.now) self.new) }
    {
        for entry in entries {
            self.note(entry)?;
        }
        Ok(())
    }

    /// Counts the fills in one scan of the journals.
    fn gather<B: BatchName>(alloc: Global, shards: &[Shard<B>]) -> Result<FillCounts, OutOfMemory>
        ensures { IfOk result (HasCounted (entries_of shards.now)) }
    {
        let mut counts = FillCounts::new(alloc);
        for shard in shards {
            counts.note_all(shard.journal())?;
        }
        Ok(counts)
    }
}

/// Counts the fills in one scan of the journals, in one part.
pub fn count_fills<B: BatchName>(
    alloc: Global,
    shards: &[Shard<B>],
) -> Result<Vec<FillCounts>, OutOfMemory>
    ensures { IfOk result (λ parts. HaveCounted (entries_of shards.now) parts.items) }
{
    let mut parts = Vec::new(alloc);
    parts.push(FillCounts::gather(alloc, shards)?)?;
    Ok(parts)
}

/// How many points the query with this number filled, as they were counted in parts; at most 4,294,967,295.
pub fn filled_by(parts: &[FillCounts], number: u32) -> u32
    ensures { result ≡ fills_in_all parts.now number }
{
    let mut count = 0u32;
    for part in parts {
        count = count.saturating_add(part.of(number));
    }
    count
}
