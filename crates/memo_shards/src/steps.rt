//! What comes of a step.

ghost use Rattle.std.specs.Prelude.{◌≡◌, ◌≢◌, IfSome, None};
ghost use Rattle.plan_machine.specs.declared.strand.Next.TheVariants.{Done};
ghost use Rattle.memo_shards.specs.Steps.{step_point};

use demand_points::{BatchName, Strand};
use plan_machine::Next;
use valid_intervals::Point;

/// What came of a step. The strand stays in hand.
#[derive(Drop)]
pub enum Step<B: BatchName> {
    /// It heard the stored cell.
    Heard,
    /// It holds the claim of the point.
    Holds,
    /// The point is claimed, and nothing has changed.
    Taken,
    /// It was refused the point, since its budget is spent.
    Refused,
    /// It filled the point, for which these waited.
    Filled(Vec<Strand<B>>),
    /// It gave the point up, for which these waited.
    Dropped(Vec<Strand<B>>),
}

/// The point of the step, if one is left.
pub fn step_point(next: Next) -> Option<Point>
    ensures some { IfSome result (λ p. (next ≢ Done) × (p ≡ step_point next)) }
    ensures none { result ≡ None → next ≡ Done }
{
    match next {
        Next::Ask(p) => Some(p),
        Next::Fill(p) => Some(p),
        Next::Drop(p) => Some(p),
        Next::Done => None,
    }
}
