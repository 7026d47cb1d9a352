//! The walk of a window up to the first time.

ghost use Rattle.std.specs.Prelude.{◌≡◌, ◌∷◌, [], List, None, false, length, IfOk, OnOk};
ghost use Rattle.gate_values.specs.Gates.{same_value};
ghost use Rattle.journal_meaning.specs.Lawful.{IsLawful};
ghost use Rattle.journal_meaning.specs.declared.Entry.{Entry as EntryRecord};
ghost use Rattle.journal_meaning.specs.Grown.{AreAdded};
ghost use Rattle.session_meaning.specs.FirstTimes.{IsFirstOutcome, up_to_first};
ghost use Rattle.session_meaning.specs.declared.Verdict.TheVariants.{Ask};
ghost use Rattle.plan_machine.specs.Sound.{IsFresh};
ghost use Rattle.plan_machine.specs.Settle.{entries_in, journals_of};
ghost use Rattle.plan_core.specs.Parts.{shards_in};
ghost use Rattle.plan_core.specs.asked.Asked.{AsksOn, AsksFreed};
ghost use Rattle.plan_core.specs.asked.Shards.{AreNumbered, AreUnused};
ghost use Rattle.plan_core.specs.asked.Memos.{entries_of};
ghost use Rattle.reply_lines.specs.Replies.{is_budget};

use crate::asking::Asking;
use demand_points::{BatchDesign, BatchName};
use gate_values::Value;
use journal_meaning::Query;
use memo_shards::Shard;
use plan_core::asked::{Wanted, begin};
use reply_lines::Outcome;
use std::alloc::Global;
use texts::OutOfMemory;
use valid_intervals::Point;

/// The outcome, and the shards after it.
#[derive(Drop)]
pub struct FirstDone<B: BatchName> {
    pub outcome: Outcome<Option<u32>>,
    pub shards: Vec<Shard<B>>,
}

/// Whether two values are equal.
fn is_same(value: Value, other: Value) -> bool
    ensures { result ≡ same_value value other }
{
    value == other
}

/// Walks a window from cell to cell, up to the first cell that has the value.
fn walk<B: BatchName>(
    asking: &mut Asking<'_, B>,
    query: Query,
    value: Value,
) -> Result<Outcome<Option<u32>>, OutOfMemory>
    requires site { B.batch.site ≡ None }
    requires queries { B.batch.queries ≡ up_to_first B.batch.circuit query value ∷ [] }
    requires unused { entries_of asking.old.memo ≡ [] }
    ensures journals { OnOk result ((added : List EntryRecord) × AreAdded
        (journals_of (shards_in asking.old.memo)) added (journals_of (shards_in asking.new.memo))) }
    ensures outcome { IfOk result (IsFirstOutcome B.batch.circuit (entries_of asking.new.memo) value
        (Ask query)) }
    ensures asks { let until = up_to_first B.batch.circuit query value in
        IfOk result (λ outcome. AsksOn B.batch B.opening until (shards_in asking.old.memo) false
        (shards_in asking.new.memo) (is_budget outcome)) }
{
    asking.facts();
    asking.turn_to(query, 0)?;
    let mut time = query.from;
    'cells: while time < query.to {
        let instant = Point {
            signal: query.signal,
            time,
        };
        let Some(cell) = asking.cell(instant)? else {
            return Ok(Outcome::Budget(query.budget));
        };
        if is_same(cell.value, value) {
            return Ok(Outcome::Answer(Some(time)));
        }
        time = cell.span.end();
    }
    Ok(Outcome::Answer(None))
}

/// The first time in the window of a query at which its signal has a value, found by asking for one cell after another up to that
/// time. For an empty window nothing is asked. An `Err` drops the shards.
pub fn first_time<B: BatchName>(
    alloc: Global,
    design: BatchDesign<'_, B>,
    shards: Vec<Shard<B>>,
    query: Query,
    value: Value,
) -> Result<FirstDone<B>, OutOfMemory>
    requires lawful { IsLawful B.batch }
    requires site { B.batch.site ≡ None }
    requires queries { B.batch.queries ≡ up_to_first B.batch.circuit query value ∷ [] }
    requires count { length shards.items ≡ B.batch.shards }
    requires numbers { AreNumbered shards.items }
    requires unused { AreUnused shards.items }
    ensures numbers { IfOk result (λ done. AreNumbered done.shards.items) }
    ensures fresh { IfOk result (λ done. IsFresh B.batch B.opening (shards_in done.shards.items)) }
    ensures journals { IfOk result (λ done. (added : List EntryRecord) ×
        AreAdded (journals_of (shards_in shards.items)) added
        (journals_of (shards_in done.shards.items))) }
    ensures outcome { IfOk result (λ done. IsFirstOutcome B.batch.circuit
        (entries_in (shards_in done.shards.items)) value (Ask query) done.outcome) }
    ensures asks { let until = up_to_first B.batch.circuit query value in
        IfOk result (λ done. AsksFreed B.batch B.opening until (shards_in shards.items)
        (shards_in done.shards.items) (is_budget done.outcome)) }
{
    let memo = begin(alloc, shards, &Wanted::all())?;
    let mut asking = Asking::new(design, memo);
    let outcome = walk(&mut asking, query, value)?;
    Ok(FirstDone {
        outcome,
        shards: asking.into_shards()?,
    })
}
