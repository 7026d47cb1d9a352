//! A batch whose strands have turns to make.

ghost use Rattle.std.specs.Prelude.{◌≡◌, map, IfOk};
ghost use Rattle.plan_core.specs.InTurn.{task_of};

use demand_points::{BatchName, Strand, Task};
use memo_shards::Shard;
use std::alloc::Global;
use texts::OutOfMemory;

/// The shards of a batch, its strands, and what each strand was started with, in the order of their numbers.
#[derive(Drop)]
pub struct Begun<B: BatchName> {
    pub shards: Vec<Shard<B>>,
    pub strands: Vec<Strand<B>>,
    pub tasks: Vec<Task>,
}

/// What each strand was started with.
pub fn tasks_of<B: BatchName>(
    alloc: Global,
    strands: &[Strand<B>],
) -> Result<Vec<Task>, OutOfMemory>
    ensures { IfOk result (λ v. v.items ≡ map task_of strands.now) }
{
    Ok(strands.iter().map(|s| s.task()).collect(alloc)?)
}
