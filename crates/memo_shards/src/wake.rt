//! Strands that come out of a claim.

ghost use Rattle.std.specs.Prelude.{◌≡◌};
ghost use Rattle.std.specs.List.{AllByRecursion, AllZip};
ghost use Rattle.demand_points.specs.Demands.{IsAskedCell, TakesStep};
ghost use Rattle.plan_machine.specs.Strands.{after_answer};

use demand_points::{BatchDesign, BatchName, Strand};
use valid_intervals::Cell;

/// Each of these strands hears the cell that it asked for.
pub fn hear_all<B: BatchName>(list: &mut Vec<Strand<B>>, design: BatchDesign<'_, B>, cell: &Cell)
    requires answer { AllByRecursion (λ s. IsAskedCell B.batch.circuit s.strand cell.now)
        list.old.items }
    ensures { AllZip (TakesStep after_answer) list.old.items list.new.items }
{
    for s in list.as_mut_slice().iter_mut() {
        s.hear(design, *cell);
    }
}
