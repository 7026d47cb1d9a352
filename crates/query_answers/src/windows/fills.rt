//! The points that each query of a batch filled.

ghost use Rattle.std.specs.Prelude.{◌≡◌, ◌++◌, ◌∷◌, [], ℕ, IfOk, OnOk};
ghost use Rattle.std.specs.BTreeMap.{get};
ghost use Rattle.std.specs.Ordering.{nat_cmp};
ghost use Rattle.plan_machine.specs.Settling.{fills_of};
ghost use Rattle.query_answers.specs.windows.inner.Fills.{points_in, added_for};
ghost use Rattle.plan_core.specs.asked.Memos.{entries_of};

use demand_points::BatchName;
use journal_meaning::Entry;
use memo_shards::Shard;
use std::alloc::Global;
use std::collections::BTreeMap;
use texts::OutOfMemory;
use valid_intervals::Point;

/// The points that queries filled, by the numbers of the queries. Among n numbers, adding a point and a look-up take O(log n)
/// steps each.
#[derive(Drop)]
pub struct FilledPoints {
    alloc: Global,
    by_query: BTreeMap<u32, Vec<Point>>,
}

impl FilledPoints {
    /// No point is filled.
    fn new(alloc: Global) -> FilledPoints
        ensures { (n : ℕ) → points_in (get nat_cmp result.by_query n) ≡ [] }
    {
        FilledPoints {
            alloc,
            by_query: BTreeMap::new(alloc),
        }
    }

    /// Adds a point that the query with this number filled.
    fn push(&mut self, number: u32, p: Point) -> Result<(), OutOfMemory>
        ensures { OnOk result ((n : ℕ) → points_in (get nat_cmp self.new.by_query n) ≡ points_in
            (get nat_cmp self.old.by_query n) ++ added_for number p n) }
    {
        if let Some(points) = self.by_query.get_mut(&number) {
            points.push(p)?;
            return Ok(());
        }
        let mut first = Vec::new(self.alloc);
        first.push(p)?;
        self.by_query.insert(number, first)?;
        Ok(())
    }

    /// Adds the point of an entry, if it is a fill.
    fn note(&mut self, entry: &Entry) -> Result<(), OutOfMemory>
        ensures { OnOk result ((n : ℕ) → points_in (get nat_cmp self.new.by_query n) ≡ points_in
            (get nat_cmp self.old.by_query n) ++ fills_of (entry.now ∷ []) n) }
    {
        match entry.filled() {
            Some((q, p, _)) => self.push(q, p),
            None => Ok(()),
        }
    }

    /// Adds the points of entries.
    fn note_all(&mut self, entries: &[Entry]) -> Result<(), OutOfMemory>
        ensures { OnOk result ((n : ℕ) → points_in (get nat_cmp self.new.by_query n) ≡ points_in
            (get nat_cmp self.old.by_query n) ++ fills_of entries.now n) }
    {
        for entry in entries {
            self.note(entry)?;
        }
        Ok(())
    }

    /// Gathers the points in one scan of the journals.
    pub fn gather<B: BatchName>(
        alloc: Global,
        shards: &[Shard<B>],
    ) -> Result<FilledPoints, OutOfMemory>
        ensures { IfOk result (λ filled. (n : ℕ)
            → points_in (get nat_cmp filled.by_query n) ≡ fills_of (entries_of shards.now) n) }
    {
        let mut filled = FilledPoints::new(alloc);
        for shard in shards {
            filled.note_all(shard.journal())?;
        }
        Ok(filled)
    }

    /// The points that the query with this number filled, each as often as it filled it.
    pub fn of(&self, number: u32) -> &[Point]
        ensures { result.now ≡ points_in (get nat_cmp self.now.by_query number) }
    {
        match self.by_query.get(&number) {
            Some(points) => points.as_slice(),
            None => &[],
        }
    }
}
