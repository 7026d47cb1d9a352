//! What a shard grants, and what a strand makes of it.

ghost use Rattle.std.specs.Prelude.{◌≡◌};
ghost use Rattle.memo_shards.specs.Grants.{IsGranted, Follows};

use crate::steps::Step;
use crate::wake::hear_all;
use demand_points::{BatchDesign, BatchName, Strand};
use texts::OutOfMemory;
use valid_intervals::{Cell, Point};

/// What a shard grants. The strand has still to follow ([`follow`]).
#[derive(Drop)]
pub enum Grant<B: BatchName> {
    /// The stored cell that covers the point.
    Told(Cell),
    /// The claim of the point.
    Claimed(Point),
    /// Nothing: the point is claimed.
    Taken,
    /// Nothing: the budget is spent.
    Refused,
    /// The end of a claim by this cell, for which these waited. They have not heard it.
    Filled(Cell, Vec<Strand<B>>),
    /// The end of a claim without a cell. These waited for it.
    Dropped(Vec<Strand<B>>),
}

/// The strand does what was granted. Those that waited for a filled point hear its cell. A strand that is refused memory for its claim
/// stays as it was.
pub fn follow<B: BatchName>(
    strand: &mut Strand<B>,
    design: BatchDesign<'_, B>,
    grant: Grant<B>,
) -> Result<Step<B>, OutOfMemory>
    requires granted { IsGranted B.batch strand.old grant }
    ensures { Follows B.batch grant strand.old strand.new result }
{
    match grant {
        Grant::Told(cell) => {
            strand.hear(design, cell);
            Ok(Step::Heard)
        }
        Grant::Claimed(p) => {
            strand.take_claim(design, p)?;
            Ok(Step::Holds)
        }
        Grant::Taken => Ok(Step::Taken),
        Grant::Refused => {
            strand.give_up();
            Ok(Step::Refused)
        }
        Grant::Filled(cell, waited) => {
            let mut woken = waited;
            hear_all(&mut woken, design, &cell);
            strand.finish_with(design, &cell);
            Ok(Step::Filled(woken))
        }
        Grant::Dropped(waited) => {
            let _ = strand.drop_top();
            Ok(Step::Dropped(waited))
        }
    }
}
