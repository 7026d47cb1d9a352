//! Settlement: one strand after another, each alone, asks for what is missing of a batch.

ghost use Rattle.std.specs.Prelude.{◌≡◌, List, All, Contains, None, false, IfOk, IfSome};
ghost use Rattle.circuit_meaning.specs.Forward.{wave};
ghost use Rattle.journal_meaning.specs.declared.Entry.{Entry as EntryRecord};
ghost use Rattle.journal_meaning.specs.Batches.{IsNeededBy};
ghost use Rattle.plan_machine.specs.Shards.{Shard as ShardRecord};
ghost use Rattle.plan_machine.specs.Standings.{IsStanding, IsVisited, IsCoveredTo};
ghost use Rattle.plan_core.specs.asked.Memos.{entries_of, is_missing};
ghost use Rattle.plan_core.specs.asked.Standings.{live, standing};
ghost use Rattle.query_answers.specs.asking.inner.AskedMemos.{GoesOnAsking};

use crate::asking::Asking;
use demand_points::BatchName;
use std::alloc::Global;
use texts::OutOfMemory;
use valid_intervals::Point;
use window_walks::{Runs, WindowWalk};

/// Asks for the missing children of a filled point. Returns whether the query is refused.
fn settle_children<B: BatchName>(asking: &mut Asking<'_, B>, p: Point) -> Result<bool, OutOfMemory>
    requires site { B.batch.site ≡ None }
    requires known { Contains B.batch.queries asking.old.query }
    requires needed { IsNeededBy B.batch asking.old.query p }
    ensures visited { IfOk result (λ r. r ≡ false
        → IsVisited B.batch.circuit (entries_of asking.new.memo) p) }
    ensures asks { IfOk result (GoesOnAsking B.batch B.opening asking.old asking.new) }
{
    asking.facts();
    let mut walk = asking.pins_of(p);
    'pins: while !walk.is_done() {
        match asking.look(&walk)? {
            None => return Ok(true),
            Some(looked) => walk = looked.walk,
        }
    }
    Ok(false)
}

/// Visits points that the query filled. Returns whether the query is refused.
pub fn settle_fills<B: BatchName>(
    asking: &mut Asking<'_, B>,
    fills: &[Point],
) -> Result<bool, OutOfMemory>
    requires site { B.batch.site ≡ None }
    requires known { Contains B.batch.queries asking.old.query }
    requires needed { All (IsNeededBy B.batch asking.old.query) fills.now }
    ensures visited { IfOk result (λ r. r ≡ false
        → All (IsVisited B.batch.circuit (entries_of asking.new.memo)) fills.now) }
    ensures asks { IfOk result (GoesOnAsking B.batch B.opening asking.old asking.new) }
{
    for &p in fills {
        if settle_children(asking, p)? {
            return Ok(true);
        }
    }
    Ok(false)
}

/// Walks the window of the query, and asks for what is missing; none if the query is refused.
pub fn settle_window<B: BatchName>(
    alloc: Global,
    asking: &mut Asking<'_, B>,
) -> Result<Option<Runs>, OutOfMemory>
    requires site { B.batch.site ≡ None }
    requires known { Contains B.batch.queries asking.old.query }
    ensures wave { let q = asking.old.query in
        IfOk result (λ r. IfSome r (λ runs. runs ≡ wave B.batch.circuit q.signal q.from q.to)) }
    ensures covered { let q = asking.old.query in
        (start : List EntryRecord) (first : List ShardRecord)
        → IsStanding B.batch B.opening q start first (live asking.old.memo)
        → IfOk result (λ r. IsCoveredTo B.batch.circuit q (standing asking.new.memo (is_missing r))
        q.to) }
    ensures asks { IfOk result (λ r. GoesOnAsking B.batch B.opening asking.old asking.new
        (is_missing r)) }
{
    asking.facts();
    let q = asking.query();
    let mut walk = WindowWalk::new(alloc, q.from, q.to);
    'roots: while let Some(time) = walk.next() {
        let root = Point {
            signal: q.signal,
            time,
        };
        let Some(cell) = asking.cell(root)? else {
            return Ok(None);
        };
        walk.push(cell)?;
    }
    Ok(Some(walk.into_runs()))
}
