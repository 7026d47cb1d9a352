//! Lines are gathered, the last first.

ghost use Rattle.std.specs.Prelude.{[], Contains, IfOk, IfSome};
ghost use Rattle.std.specs.BTreeMap.{get};
ghost use Rattle.plan_core.specs.asked.Memos.{entries_of, is_missing};
ghost use Rattle.query_answers.specs.asking.inner.AskedMemos.{GoesOnAsking};
ghost use Rattle.query_answers.specs.explanations.inner.Waiting.{place_cmp};
ghost use Rattle.query_answers.specs.explanations.inner.Gathered.{AreGathered, AreExplained};

use crate::asking::Asking;
use crate::explanations::children::ask_children;
use crate::explanations::waiting::Waiting;
use demand_points::BatchName;
use std::alloc::Global;
use texts::OutOfMemory;
use valid_intervals::SignalCell;

/// The lines of the cells that wait and of all that they come from, in order. None where the query is refused.
pub fn gather<B: BatchName>(
    alloc: Global,
    asking: &mut Asking<'_, B>,
    waiting: Waiting,
) -> Result<Option<Vec<SignalCell>>, OutOfMemory>
    requires known { Contains B.batch.queries asking.old.query }
    requires gathered { AreGathered B.batch asking.old.query (entries_of asking.old.memo) []
        (get place_cmp waiting.cells) }
    ensures lines { IfOk result (λ r. IfSome r
        (λ lines. AreExplained B.batch.circuit (entries_of asking.new.memo) asking.old.query
        lines.items)) }
    ensures asks { IfOk result (λ r. GoesOnAsking B.batch B.opening asking.old asking.new
        (is_missing r)) }
{
    asking.facts();
    let design = asking.design();
    design.facts();
    let mut waiting = waiting;
    let mut lines = Vec::new(alloc);
    'cells: while let Some(asked) = waiting.take_last() {
        lines.push(asked.line())?;
        let point = asked.point();
        if ask_children(asking, point, &mut waiting)? {
            return Ok(None);
        }
    }
    lines.reverse();
    Ok(Some(lines))
}
