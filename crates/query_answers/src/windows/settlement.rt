//! Settlement of a batch.

ghost use Rattle.std.specs.Prelude.{◌≡◌, true, None, length, IfOk, IfSome};
ghost use Rattle.std.specs.Option.{ForSome};
ghost use Rattle.journal_meaning.specs.Lawful.{IsLawful};
ghost use Rattle.plan_core.specs.InTurn.{AllChildrenCovered};
ghost use Rattle.plan_core.specs.Parts.{shards_in};
ghost use Rattle.plan_machine.specs.Settle.{AreFreed, AreShards};
ghost use Rattle.plan_core.specs.asked.FillCounts.{HaveCounted};
ghost use Rattle.plan_core.specs.asked.Shards.{AreNumbered};
ghost use Rattle.plan_core.specs.asked.Memos.{AreFreeShards, entries_of};
ghost use Rattle.query_answers.specs.windows.Settlement.{HasSettled};

use crate::asking::Asking;
use crate::windows::answers::{answer_all, feed_all};
use demand_points::{BatchDesign, BatchName};
use journal_meaning::Query;
use memo_shards::Shard;
use plan_core::asked::{FillCounts, Memo, Said, Wanted, begin, begin_with};
use reply_lines::Outcome;
use std::alloc::Global;
use texts::OutOfMemory;
use window_walks::Runs;

/// The outcomes of the queries, and the shards after it.
#[derive(Drop)]
pub struct Settled<B: BatchName> {
    pub outcomes: Vec<Outcome<Runs>>,
    pub shards: Vec<Shard<B>>,
}

/// Shards whose claims are freed, and the counts of fills, if they are known.
#[derive(Drop)]
struct Begun<B: BatchName> {
    memo: Memo<B>,
    fills: Option<Vec<FillCounts>>,
}

/// Frees the claims that are left. Where nothing is noted of the entries, it is noted where those stand that are going to be looked up:
/// if `heard` is true, only those for points in the windows.
fn begin_settlement<B: BatchName>(
    alloc: Global,
    shards: Vec<Shard<B>>,
    queries: &[Query],
    heard: bool,
    said: Option<Said>,
) -> Result<Begun<B>, OutOfMemory>
    requires lawful { IsLawful B.batch }
    requires count { length shards.items ≡ B.batch.shards }
    requires numbers { AreNumbered shards.items }
    requires said { ForSome said (λ said. HaveCounted (entries_of shards.items) said.fills.items) }
    ensures shards { IfOk result (λ _. AreShards B.batch B.opening (shards_in shards.items)) }
    ensures freed { IfOk result (λ begun. AreFreed (shards_in shards.items)
        (shards_in begun.memo)) }
    ensures free { IfOk result (λ begun. AreFreeShards B.batch B.opening begun.memo) }
    ensures fills { IfOk result (λ begun. IfSome begun.fills
        (λ fills. HaveCounted (entries_of shards.items) fills.items)) }
{
    if let Some(Said { places, fills }) = said {
        return Ok(Begun {
            memo: begin_with(alloc, shards, places),
            fills: Some(fills),
        });
    }
    let wanted = if heard {
        Wanted::windows(queries)
    } else {
        Wanted::all()
    };
    Ok(Begun {
        memo: begin(alloc, shards, &wanted)?,
        fills: None,
    })
}

/// Settles a batch. First the claims that are left are freed. Then the fills of the queries are visited: a strand alone asks for
/// each of their children that neither an entry of the batch nor a base answer gives. Then each window is walked, and a strand
/// alone asks for what is not covered. Both steps take the queries in order.
///
/// If `heard` is true, the caller knows that each evaluated point has heard its children: an entry of the batch or a base answer gives
/// each of them. The visits are then left out. What the caller has noted of the entries (`said`) is not read again.
pub fn settle<B: BatchName>(
    alloc: Global,
    design: BatchDesign<'_, B>,
    shards: Vec<Shard<B>>,
    queries: &[Query],
    heard: bool,
    said: Option<Said>,
) -> Result<Settled<B>, OutOfMemory>
    requires lawful { IsLawful B.batch }
    requires site { B.batch.site ≡ None }
    requires queries { queries.now ≡ B.batch.queries }
    requires count { length shards.items ≡ B.batch.shards }
    requires numbers { AreNumbered shards.items }
    requires heard { heard ≡ true → AllChildrenCovered B.batch.circuit (entries_of shards.items) }
    requires said { ForSome said (λ said. HaveCounted (entries_of shards.items) said.fills.items) }
    ensures { IfOk result (λ settled. HasSettled B.batch B.opening shards.items settled.shards.items
        settled.outcomes.items) }
{
    let Begun { memo, fills } = begin_settlement(alloc, shards, queries, heard, said)?;
    let mut asking = Asking::new(design, memo);
    let fed = feed_all(alloc, &mut asking, queries, heard, fills)?;
    let outcomes = answer_all(alloc, &mut asking, queries, &fed)?;
    Ok(Settled {
        outcomes,
        shards: asking.into_shards()?,
    })
}
