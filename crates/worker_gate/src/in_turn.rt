//! The strands run one after another on the caller's thread, without locks. Nothing here waits, so each call ends.

ghost use Rattle.std.specs.Prelude.{◌≡◌, ◌<◌, true, Some, None, [], length, map, sum, sum_by, vec_len, All, IfOk, IsSome};
ghost use Rattle.memo_shards.specs.KeptShards.{IsKnownShard};
ghost use Rattle.plan_core.specs.InTurn.{AllChildrenCovered, HasRun, booked_by, made_by, task_of};
ghost use Rattle.plan_core.specs.Parts.{shards_in, AreInOrder};
ghost use Rattle.plan_machine.specs.Settle.{entries_in};
ghost use Rattle.worker_gate.specs.Ends.{AreEnds, AreFilled, AreNew, AreNumbered};

use crate::board::booked_of;
use crate::ran::{CountList, EndedList, Ran, ShardList};
use demand_points::{BatchDesign, BatchName, Strand};
use memo_shards::{Shard, know_all};
use plan_core::run_in_turn;
use std::alloc::Global;
use texts::OutOfMemory;

/// Makes the turns of one strand after another, each until it has ended, and no more than `most`, where it is given. Returns whether no
/// strand was refused a point, or none where turns may be left.
pub fn make_turns<B: BatchName>(
    strands: &mut [Strand<B>],
    shards: &mut [Shard<B>],
    design: BatchDesign<'_, B>,
    most: Option<u64>,
) -> Result<Option<bool>, OutOfMemory>
    requires named { length shards.old ≡ B.batch.shards }
    requires some { 0 < length shards.old }
    requires order { AreInOrder shards.old }
    requires empty { All (λ m. m.shard.journal ≡ []) shards.old }
    requires new { AreNew strands.old }
    ensures numbers { AreNumbered strands.new }
    ensures tasks { map task_of strands.new ≡ map task_of strands.old }
    ensures count { length shards.new ≡ length shards.old }
    ensures order { AreInOrder shards.new }
    ensures counted { sum_by made_by strands.new ≡ sum_by booked_by shards.new }
    ensures whole { most ≡ None → IfOk result (λ unrefused. IsSome unrefused) }
    ensures ended { IfOk result (λ unrefused. IsSome unrefused → All HasRun strands.new) }
    ensures heard { IfOk result (λ unrefused. unrefused ≡ Some true
        → AllChildrenCovered B.batch.circuit (entries_in (shards_in shards.new))) }
{
    know_all(shards);
    run_in_turn(strands, shards, design, most)
}

// How often each strand has claimed and filled a point.
fn booked_of_each<B: BatchName>(
    alloc: Global,
    strands: &[Strand<B>],
) -> Result<Vec<u64>, OutOfMemory>
    ensures { IfOk result (λ v. v.items ≡ map made_by strands.now) }
{
    Ok(strands.iter().map(|s| booked_of(s)).collect(alloc)?)
}

// Each strand at its place.
fn places_of<B: BatchName>(
    alloc: Global,
    strands: Vec<Strand<B>>,
) -> Result<Vec<Option<Strand<B>>>, OutOfMemory>
    ensures { IfOk result (λ v. v.items ≡ map Some strands.items) }
{
    Ok(strands.into_iter().map(|s| Some(s)).collect(alloc)?)
}

/// What is left of a batch whose strands have all ended, one after another.
pub fn end_in_turn<B: BatchName>(
    alloc: Global,
    shards: Vec<Shard<B>>,
    strands: Vec<Strand<B>>,
    unrefused: bool,
) -> Result<Ran<B>, OutOfMemory>
    requires numbers { AreNumbered strands.items }
    requires ended { All HasRun strands.items }
    requires counted { sum_by made_by strands.items ≡ sum_by booked_by shards.items }
    ensures counted { IfOk result (λ r. sum r.counts ≡ sum_by booked_by r.shards) }
    ensures ended { IfOk result (λ r. AreEnds r.strands (map task_of strands.items) r.counts) }
    ensures filled { IfOk result (λ r. AreFilled r.strands) }
    ensures places { IfOk result (λ r. length r.strands ≡ vec_len strands) }
    ensures counts { IfOk result (λ r. length r.counts ≡ vec_len strands) }
    ensures shards { IfOk result (λ r. r.shards ≡ shards.items) }
    ensures heard { IfOk result (λ r. r.heard ≡ unrefused) }
    ensures said { IfOk result (λ r. r.said ≡ None) }
{
    let counts = booked_of_each(alloc, strands.as_slice())?;
    let places = places_of(alloc, strands)?;
    Ok(Ran {
        shards: ShardList::new(shards),
        strands: EndedList::new(places),
        counts: CountList::new(counts),
        heard: unrefused,
        said: None,
    })
}

/// Runs the strands over the shards, one after another until each has ended.
pub fn run_alone<B: BatchName>(
    alloc: Global,
    design: BatchDesign<'_, B>,
    shards: Vec<Shard<B>>,
    strands: Vec<Strand<B>>,
) -> Result<Ran<B>, OutOfMemory>
    requires named { vec_len shards ≡ B.batch.shards }
    requires some { 0 < vec_len shards }
    requires order { AreInOrder shards.items }
    requires empty { All (λ m. m.shard.journal ≡ []) shards.items }
    requires new { AreNew strands.items }
    ensures counted { IfOk result (λ r. sum r.counts ≡ sum_by booked_by r.shards) }
    ensures ended { IfOk result (λ r. AreEnds r.strands (map task_of strands.items) r.counts) }
    ensures filled { IfOk result (λ r. AreFilled r.strands) }
    ensures places { IfOk result (λ r. length r.strands ≡ vec_len strands) }
    ensures counts { IfOk result (λ r. length r.counts ≡ vec_len strands) }
    ensures shards { IfOk result (λ r. length r.shards ≡ vec_len shards) }
    ensures order { IfOk result (λ r. AreInOrder r.shards) }
    ensures heard { IfOk result (λ r. r.heard ≡ true → AllChildrenCovered B.batch.circuit
        (entries_in (shards_in r.shards))) }
    ensures said { IfOk result (λ r. r.said ≡ None) }
{
    let mut shards = shards;
    let mut strands = strands;
    let Some(unrefused) = make_turns(&mut strands, &mut shards, design, None)? else {
        unreachable!()
    };
    end_in_turn(alloc, shards, strands, unrefused)
}
