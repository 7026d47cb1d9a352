//! What a strand asks of the shard of its point.

ghost use Rattle.std.specs.Prelude.{◌≡◌, IfSome, None};
ghost use Rattle.plan_machine.specs.Strands.{next as next_of};
ghost use Rattle.plan_machine.specs.declared.strand.Next.TheVariants.{Done};
ghost use Rattle.memo_shards.specs.Grants.{step_of, point_of, IsRequest};

use demand_points::{BatchDesign, BatchName, Strand};
use plan_machine::Next;
use valid_intervals::{Cell, Point};

/// The next step of a strand, as a shard has to know it.
#[derive(Clone, Copy, Debug, PartialEq, Eq)]
pub enum Request {
    Ask(Point),
    /// With the cell of the point.
    Fill(Point, Cell),
    Drop(Point),
}

impl Request {
    /// The point of the step.
    pub fn point(&self) -> Point
        ensures { result ≡ point_of self.now }
    {
        match *self {
            Request::Ask(p) => p,
            Request::Fill(p, _) => p,
            Request::Drop(p) => p,
        }
    }
}

/// The request of the strand's next step, if one is left. The cell of a point that it fills is worked out here.
pub fn request_of<B: BatchName>(
    strand: &Strand<B>,
    design: BatchDesign<'_, B>,
    next: Next,
) -> Option<Request>
    requires next { next_of strand.now.strand ≡ next }
    ensures some { IfSome result (IsRequest B.batch strand.now) }
    ensures none { result ≡ None → next ≡ Done }
{
    match next {
        Next::Ask(p) => Some(Request::Ask(p)),
        Next::Fill(p) => Some(Request::Fill(p, strand.top_cell(design))),
        Next::Drop(p) => Some(Request::Drop(p)),
        Next::Done => None,
    }
}
