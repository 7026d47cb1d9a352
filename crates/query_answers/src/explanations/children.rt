//! What a cell comes from is asked for.

ghost use Rattle.std.specs.Prelude.{◌≡◌, ◌∷◌, [], Contains, Some, false, IfOk, OnOk};
ghost use Rattle.std.specs.BTreeMap.{get};
ghost use Rattle.circuit_meaning.specs.Cells.{cell_at};
ghost use Rattle.circuit_meaning.specs.Need.{IsEvaluable};
ghost use Rattle.design.specs.PinWalks.{IsPoint, looked_at};
ghost use Rattle.journal_meaning.specs.Answers.{IsCovered};
ghost use Rattle.journal_meaning.specs.Batches.{IsNeededBy};
ghost use Rattle.plan_core.specs.asked.Memos.{entries_of};
ghost use Rattle.query_answers.specs.asking.inner.AskedMemos.{GoesOnAsking};
ghost use Rattle.query_answers.specs.explanations.inner.Waiting.{place_cmp};
ghost use Rattle.query_answers.specs.explanations.inner.Gathered.{Notes};

use crate::asking::{Asking, Looked};
use crate::explanations::waiting::{Asked, Waiting};
use demand_points::BatchName;
use texts::OutOfMemory;
use valid_intervals::{Cell, Point};

/// The cell of a point that was asked for waits from now on, unless it is the point's base answer.
pub fn note<B: BatchName>(
    asking: &Asking<'_, B>,
    p: Point,
    cell: Cell,
    waiting: &mut Waiting,
) -> Result<(), OutOfMemory>
    requires point { IsPoint B.batch.circuit p }
    requires cell { cell ≡ cell_at B.batch.circuit p }
    requires covered { IsCovered B.batch.circuit (entries_of asking.now.memo) p }
    ensures { OnOk result (Notes B.batch.circuit (entries_of asking.now.memo)
        (get place_cmp waiting.old.cells) (get place_cmp waiting.new.cells) (Some p ∷ [])) }
{
    asking.facts();
    match asking.design().base(p.signal, p.time) {
        Some(_) => Ok(()),
        None => waiting.add(&Asked {
            signal: p.signal,
            time: p.time,
            cell,
        }),
    }
}

/// Asks for what the cell of a point comes from, pin by pin up to the first that decides; whether the query is refused.
pub fn ask_children<B: BatchName>(
    asking: &mut Asking<'_, B>,
    p: Point,
    waiting: &mut Waiting,
) -> Result<bool, OutOfMemory>
    requires known { Contains B.batch.queries asking.old.query }
    requires point { IsPoint B.batch.circuit p }
    requires evaluable { IsEvaluable B.batch.circuit p.signal p.time }
    requires needed { IsNeededBy B.batch asking.old.query p }
    ensures notes { IfOk result (λ r. r ≡ false
        → Notes B.batch.circuit (entries_of asking.new.memo) (get place_cmp waiting.old.cells)
        (get place_cmp waiting.new.cells) (looked_at B.batch.circuit p)) }
    ensures asks { IfOk result (GoesOnAsking B.batch B.opening asking.old asking.new) }
{
    let mut walk = asking.pins_of(p);
    'pins: while !walk.is_done() {
        let Some(Looked { walk: next, heard }) = asking.look(&walk)? else {
            return Ok(true);
        };
        if let Some((source, cell)) = heard {
            note(asking, source, cell, waiting)?;
        }
        walk = next;
    }
    Ok(false)
}
