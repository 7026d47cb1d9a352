//! The queries of a batch, one after another.

ghost use Rattle.std.specs.Prelude.{◌≡◌, ℕ, true, false, min, List, [], All, Contains, None, length, IfOk};
ghost use Rattle.std.specs.Option.{ForSome};
ghost use Rattle.journal_meaning.specs.declared.Entry.{Entry as EntryRecord};
ghost use Rattle.journal_meaning.specs.Answers.{fill_count};
ghost use Rattle.journal_meaning.specs.Batches.{IsNeededBy};
ghost use Rattle.plan_machine.specs.Shards.{Shard as ShardRecord};
ghost use Rattle.plan_machine.specs.Standings.{IsOpen, SettlesQuery};
ghost use Rattle.plan_machine.specs.Settle.{charge_of};
ghost use Rattle.plan_machine.specs.Settling.{fills_of};
ghost use Rattle.plan_core.specs.Parts.{shards_in};
ghost use Rattle.plan_core.specs.InTurn.{AllChildrenCovered};
ghost use Rattle.plan_core.specs.asked.Asked.{AsksOn};
ghost use Rattle.plan_core.specs.asked.FillCounts.{HaveCounted};
ghost use Rattle.plan_core.specs.asked.Memos.{entries_of};
ghost use Rattle.reply_lines.specs.Replies.{is_budget};
ghost use Rattle.plan_core.specs.asked.Standings.{standing};
ghost use Rattle.query_answers.specs.windows.inner.Phases.{IsFedWith, FeedsQuery, IsFeeding, IsWalking, refused_in};
ghost use Rattle.query_answers.specs.windows.Phases.{IsOutcomeFor, refused_of};
ghost use Rattle.query_answers.specs.windows.Settlement.{AskInTurn, none_refused};

use crate::asking::Asking;
use crate::windows::fills::FilledPoints;
use crate::windows::visits::{settle_fills, settle_window};
use demand_points::BatchName;
use journal_meaning::Query;
use memo_shards::Shard;
use plan_core::asked::{FillCounts, count_fills, filled_by};
use reply_lines::Outcome;
use std::alloc::Global;
use texts::OutOfMemory;
use valid_intervals::Point;
use window_walks::Runs;

/// The charge of a query after its fills are visited, and whether it was refused.
#[derive(Clone, Copy)]
pub struct Fed {
    pub charge: u32,
    pub refused: bool,
}

/// The number of fills, at most the budget.
fn charge_at(fills: usize, budget: u32) -> u32
    ensures { result ≡ min fills budget }
{
    if fills < budget as usize {
        fills as u32
    } else {
        budget
    }
}

/// The number of fills, at most the budget, where they were counted up to 4,294,967,295.
fn charge_counted(count: u32, budget: u32) -> u32
    ensures { (fills : ℕ) → count ≡ min fills 4294967295 → result ≡ min fills budget }
{
    count.min(budget)
}

/// Visits the points that a query had filled before settlement.
fn feed_one<B: BatchName>(
    asking: &mut Asking<'_, B>,
    q: Query,
    points: &[Point],
) -> Result<Fed, OutOfMemory>
    requires site { B.batch.site ≡ None }
    requires known { Contains B.batch.queries q }
    requires needed { All (IsNeededBy B.batch q) points.now }
    requires counts { length points.now ≡ fill_count (entries_of asking.old.memo) q.number }
    ensures feeds { (start : List EntryRecord)
        → IsOpen B.batch.circuit q start (entries_of asking.old.memo)
        → points.now ≡ fills_of start q.number
        → IfOk result (FeedsQuery B.batch q start (shards_in asking.old.memo)
        (shards_in asking.new.memo)) }
    ensures asks { IfOk result (λ f. AsksOn B.batch B.opening q (shards_in asking.old.memo) false
        (shards_in asking.new.memo) f.refused) }
{
    asking.facts();
    asking.turn_to(q, charge_at(points.len(), q.budget))?;
    let refused = settle_fills(asking, points)?;
    Ok(Fed {
        charge: asking.charge(),
        refused,
    })
}

/// Visits what each query filled. The fills of all queries are gathered before the first visit: the strands that then run alone
/// fill only for the query that is visited.
fn visit_all<B: BatchName>(
    alloc: Global,
    asking: &mut Asking<'_, B>,
    queries: &[Query],
) -> Result<Vec<Fed>, OutOfMemory>
    requires site { B.batch.site ≡ None }
    requires queries { queries.now ≡ B.batch.queries }
    ensures fed { IfOk result (λ fed. IsFeeding B.batch (entries_of asking.old.memo)
        (shards_in asking.old.memo) (shards_in asking.new.memo) B.batch.queries fed.items []) }
    ensures asks { let qs = queries.now in
        IfOk result (λ fed. AskInTurn B.batch B.opening qs (shards_in asking.old.memo)
        (none_refused qs) (shards_in asking.new.memo) (refused_in fed.items)) }
{
    asking.facts();
    let gathered = FilledPoints::gather(alloc, asking.shards()?)?;
    let mut fed = Vec::new(alloc);
    for &q in queries {
        let one = feed_one(asking, q, gathered.of(q.number))?;
        fed.push(one)?;
    }
    Ok(fed)
}

/// The counts of fills, which are made where they are not known.
fn counts_or_new<B: BatchName>(
    alloc: Global,
    fills: Option<Vec<FillCounts>>,
    shards: &[Shard<B>],
) -> Result<Vec<FillCounts>, OutOfMemory>
    requires { ForSome fills (λ fills. HaveCounted (entries_of shards.now) fills.items) }
    ensures { IfOk result (λ fills. HaveCounted (entries_of shards.now) fills.items) }
{
    match fills {
        Some(fills) => Ok(fills),
        None => count_fills(alloc, shards),
    }
}

/// Counts what each query filled, where the children of all that was filled are covered already, so that no visit finds one missing.
fn count_all<B: BatchName>(
    alloc: Global,
    asking: &Asking<'_, B>,
    queries: &[Query],
    fills: Option<Vec<FillCounts>>,
) -> Result<Vec<Fed>, OutOfMemory>
    requires queries { queries.now ≡ B.batch.queries }
    requires heard { AllChildrenCovered B.batch.circuit (entries_of asking.now.memo) }
    requires fills { ForSome fills (λ fills. HaveCounted (entries_of asking.now.memo) fills.items) }
    ensures fed { IfOk result (λ fed. IsFeeding B.batch (entries_of asking.now.memo)
        (shards_in asking.now.memo) (shards_in asking.now.memo) B.batch.queries fed.items []) }
    ensures asks { let qs = queries.now in
        IfOk result (λ fed. AskInTurn B.batch B.opening qs (shards_in asking.now.memo)
        (none_refused qs) (shards_in asking.now.memo) (refused_in fed.items)) }
{
    asking.facts();
    let fills = counts_or_new(alloc, fills, asking.shards()?)?;
    let mut fed = Vec::new(alloc);
    for &q in queries {
        let charge = charge_counted(filled_by(&fills, q.number), q.budget);
        fed.push(Fed {
            charge,
            refused: false,
        })?;
    }
    Ok(fed)
}

/// Visits what each query filled, or only counts it, by these counts if there are any: if `heard` is true, the children of all that was
/// filled are covered already, and no point is visited.
pub fn feed_all<B: BatchName>(
    alloc: Global,
    asking: &mut Asking<'_, B>,
    queries: &[Query],
    heard: bool,
    fills: Option<Vec<FillCounts>>,
) -> Result<Vec<Fed>, OutOfMemory>
    requires site { B.batch.site ≡ None }
    requires queries { queries.now ≡ B.batch.queries }
    requires heard { heard ≡ true
        → AllChildrenCovered B.batch.circuit (entries_of asking.old.memo) }
    requires fills { ForSome fills (λ fills. HaveCounted (entries_of asking.old.memo) fills.items) }
    ensures fed { IfOk result (λ fed. IsFeeding B.batch (entries_of asking.old.memo)
        (shards_in asking.old.memo) (shards_in asking.new.memo) B.batch.queries fed.items []) }
    ensures asks { let qs = queries.now in
        IfOk result (λ fed. AskInTurn B.batch B.opening qs (shards_in asking.old.memo)
        (none_refused qs) (shards_in asking.new.memo) (refused_in fed.items)) }
{
    if heard {
        count_all(alloc, asking, queries, fills)
    } else {
        visit_all(alloc, asking, queries)
    }
}

/// Walks the window of a query, unless it was refused.
fn answer_one<B: BatchName>(
    alloc: Global,
    asking: &mut Asking<'_, B>,
    q: Query,
    fed: Fed,
) -> Result<Outcome<Runs>, OutOfMemory>
    requires site { B.batch.site ≡ None }
    requires known { Contains B.batch.queries q }
    requires counts { fed.charge ≡ charge_of (entries_of asking.old.memo) q }
    ensures outcome { IfOk result (IsOutcomeFor B.batch.circuit q) }
    ensures settles { (start : List EntryRecord)
        → IsFedWith B.batch.circuit q start (entries_of asking.old.memo) fed
        → IfOk result (λ r. SettlesQuery B.batch B.opening q start (shards_in asking.old.memo)
        (standing asking.new.memo (is_budget r))) }
    ensures asks { IfOk result (λ r. AsksOn B.batch B.opening q (shards_in asking.old.memo)
        fed.refused (shards_in asking.new.memo) (is_budget r)) }
{
    asking.facts();
    asking.turn_to(q, fed.charge)?;
    if fed.refused {
        return Ok(Outcome::Budget(q.budget));
    }
    match settle_window(alloc, asking)? {
        Some(runs) => Ok(Outcome::Answer(runs)),
        None => Ok(Outcome::Budget(q.budget)),
    }
}

/// Walks the window of each query that was not refused.
pub fn answer_all<B: BatchName>(
    alloc: Global,
    asking: &mut Asking<'_, B>,
    queries: &[Query],
    fed: &[Fed],
) -> Result<Vec<Outcome<Runs>>, OutOfMemory>
    requires site { B.batch.site ≡ None }
    requires queries { queries.now ≡ B.batch.queries }
    requires count { length fed.now ≡ length queries.now }
    requires fed { (start : List EntryRecord) ×
        ((first : List ShardRecord) × IsWalking B.batch start first (shards_in asking.old.memo)
        [] [] queries.now fed.now) }
    ensures settled { (start : List EntryRecord) (first : List ShardRecord)
        → IsWalking B.batch start first (shards_in asking.old.memo) [] [] queries.now fed.now
        → IfOk result (λ outcomes. IsWalking B.batch start first (shards_in asking.new.memo)
        B.batch.queries outcomes.items [] []) }
    ensures asks { let qs = queries.now in let was = refused_in fed.now in
        IfOk result (λ outcomes. AskInTurn B.batch B.opening qs (shards_in asking.old.memo) was
        (shards_in asking.new.memo) (refused_of outcomes.items)) }
{
    asking.facts();
    let mut outcomes = Vec::new(alloc);
    for k in 0..queries.len() {
        let outcome = answer_one(alloc, asking, queries[k], fed[k])?;
        outcomes.push(outcome)?;
    }
    Ok(outcomes)
}
