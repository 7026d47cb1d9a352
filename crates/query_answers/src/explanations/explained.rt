//! The answer to a question for an explanation.

ghost use Rattle.std.specs.Prelude.{◌≡◌, ◌+◌, ◌∷◌, [], List, None, false, length, IfOk, OnOk};
ghost use Rattle.journal_meaning.specs.Lawful.{IsLawful};
ghost use Rattle.journal_meaning.specs.declared.Entry.{Entry as EntryRecord};
ghost use Rattle.journal_meaning.specs.Grown.{AreAdded};
ghost use Rattle.session_meaning.specs.Explanations.{IsExplained};
ghost use Rattle.session_meaning.specs.declared.Verdict.TheVariants.{Ask};
ghost use Rattle.plan_machine.specs.Sound.{IsFresh};
ghost use Rattle.plan_machine.specs.Settle.{entries_in, journals_of};
ghost use Rattle.plan_core.specs.Parts.{shards_in};
ghost use Rattle.plan_core.specs.asked.Asked.{AsksOn, AsksFreed};
ghost use Rattle.plan_core.specs.asked.Shards.{AreNumbered, AreUnused};
ghost use Rattle.plan_core.specs.asked.Memos.{entries_of};
ghost use Rattle.reply_lines.specs.Replies.{is_budget};

use crate::asking::Asking;
use crate::explanations::children::note;
use crate::explanations::lines::gather;
use crate::explanations::waiting::Waiting;
use demand_points::{BatchDesign, BatchName};
use journal_meaning::Query;
use memo_shards::Shard;
use plan_core::asked::{Wanted, begin};
use reply_lines::{Explanation, Outcome};
use std::alloc::Global;
use texts::OutOfMemory;
use valid_intervals::Point;
use why_proofs::CellList;

/// What was found, and the shards that are left.
#[derive(Drop)]
pub struct Explained<B: BatchName> {
    pub outcome: Outcome<Explanation>,
    pub shards: Vec<Shard<B>>,
}

/// Asks for the one time of a query, and gathers the lines of its cell.
fn gather_answer<B: BatchName>(
    alloc: Global,
    asking: &mut Asking<'_, B>,
    query: Query,
) -> Result<Outcome<Explanation>, OutOfMemory>
    requires site { B.batch.site ≡ None }
    requires queries { B.batch.queries ≡ query ∷ [] }
    requires window { query.to ≡ query.from + 1 }
    requires unused { entries_of asking.old.memo ≡ [] }
    ensures journals { OnOk result ((added : List EntryRecord) × AreAdded
        (journals_of (shards_in asking.old.memo)) added (journals_of (shards_in asking.new.memo))) }
    ensures outcome { IfOk result (IsExplained B.batch.circuit (entries_of asking.new.memo)
        (Ask query)) }
    ensures asks { IfOk result (λ outcome. AsksOn B.batch B.opening query
        (shards_in asking.old.memo) false (shards_in asking.new.memo) (is_budget outcome)) }
{
    asking.facts();
    asking.turn_to(query, 0)?;
    let mut waiting = Waiting::new(alloc);
    let point = Point {
        signal: query.signal,
        time: query.from,
    };
    let Some(cell) = asking.cell(point)? else {
        return Ok(Outcome::Budget(query.budget));
    };
    let value = cell.value;
    note(asking, point, cell, &mut waiting)?;
    match gather(alloc, asking, waiting)? {
        None => Ok(Outcome::Budget(query.budget)),
        Some(lines) => Ok(Outcome::Answer(Explanation {
            cells: CellList::from_vec(lines),
            value,
        })),
    }
}

/// Why the signal of a query has its value at the query's one time: the cells that prove it, each told or filled in the batch; or the
/// budget, where it would take more evaluations. An `Err` gives up the shards.
pub fn explain<B: BatchName>(
    alloc: Global,
    design: BatchDesign<'_, B>,
    shards: Vec<Shard<B>>,
    query: Query,
) -> Result<Explained<B>, OutOfMemory>
    requires lawful { IsLawful B.batch }
    requires site { B.batch.site ≡ None }
    requires queries { B.batch.queries ≡ query ∷ [] }
    requires window { query.to ≡ query.from + 1 }
    requires count { length shards.items ≡ B.batch.shards }
    requires numbers { AreNumbered shards.items }
    requires unused { AreUnused shards.items }
    ensures numbers { IfOk result (λ done. AreNumbered done.shards.items) }
    ensures fresh { IfOk result (λ done. IsFresh B.batch B.opening (shards_in done.shards.items)) }
    ensures journals { IfOk result (λ done. (added : List EntryRecord) ×
        AreAdded (journals_of (shards_in shards.items)) added
        (journals_of (shards_in done.shards.items))) }
    ensures outcome { IfOk result (λ done. IsExplained B.batch.circuit
        (entries_in (shards_in done.shards.items)) (Ask query) done.outcome) }
    ensures asks { IfOk result (λ done. AsksFreed B.batch B.opening query (shards_in shards.items)
        (shards_in done.shards.items) (is_budget done.outcome)) }
{
    let memo = begin(alloc, shards, &Wanted::all())?;
    let mut asking = Asking::new(design, memo);
    let outcome = gather_answer(alloc, &mut asking, query)?;
    Ok(Explained {
        outcome,
        shards: asking.into_shards()?,
    })
}
