//! Strands that run one after another, each alone over the shards.

ghost use Rattle.std.specs.Prelude.{◌≡◌, ◌<◌, ◌≤◌, ◌+◌, ℕ, All, Any, IfOk, IsSome, None, Some, [], false, length, map, true};
ghost use Rattle.journal_meaning.specs.Lawful.{IsLawful};
ghost use Rattle.plan_machine.specs.Settle.{entries_in};
ghost use Rattle.plan_machine.specs.Sound.{IsFresh};
ghost use Rattle.plan_core.specs.Parts.{AreFree, AreInOrder, shards_in};
ghost use Rattle.plan_core.specs.InTurn.{AllChildrenCovered, HasRun, IsUnused, booked_in, made_by, made_in, task_of};
ghost use Rattle.plan_core.specs.inner.InTurn.{IsAlone, IsWithin, KeepsTask, OfTurnAlone, TakesOne};

use demand_points::{BatchDesign, BatchName, Strand};
use memo_shards::{Shard, Step, know_all, shard_number, step_point};
use plan_machine::Turned;
use texts::OutOfMemory;

// One turn of a strand that is alone over the shards.
fn turn<B: BatchName>(
    strand: &mut Strand<B>,
    shards: &mut [Shard<B>],
    design: BatchDesign<'_, B>,
) -> Result<Turned, OutOfMemory>
    requires alone { IsAlone B.batch B.opening strand.old shards.old }
    ensures { OfTurnAlone B.batch B.opening strand.old shards.old strand.new shards.new result }
{
    let next = strand.next_step(design);
    strand.facts();
    let Some(p) = step_point(next) else {
        return Ok(Turned::NotReady);
    };
    let home = shard_number(p.signal, shards.len());
    match shards[home].step(strand, design, next)? {
        Step::Heard => Ok(Turned::Told),
        Step::Holds => Ok(Turned::Claimed),
        Step::Taken => unreachable!(),
        Step::Refused => Ok(Turned::Spent),
        Step::Filled(_) => Ok(Turned::Filled),
        Step::Dropped(_) => Ok(Turned::Dropped),
    }
}

// Takes a turn from those that are left. False where none is.
fn takes_turn(left: &mut Option<u64>) -> bool
    ensures { TakesOne left.old left.new result }
{
    match left {
        None => true,
        Some(turns) => {
            if *turns == 0 {
                return false;
            }
            *turns -= 1;
            true
        }
    }
}

// Turns of one strand alone until it has ended, and no more than are left. Returns whether it has ended.
fn run_one<B: BatchName>(
    strand: &mut Strand<B>,
    shards: &mut [Shard<B>],
    design: BatchDesign<'_, B>,
    left: &mut Option<u64>,
) -> Result<bool, OutOfMemory>
    requires lawful { IsLawful B.batch }
    requires order { AreInOrder shards.old }
    requires fresh { IsFresh B.batch B.opening (shards_in shards.old) }
    requires unused { IsUnused strand.old }
    ensures task { KeepsTask strand.old strand.new }
    ensures order { AreInOrder shards.new }
    ensures count { length shards.new ≡ length shards.old }
    ensures counted { made_by strand.new + booked_in shards.old
        ≡ made_by strand.old + booked_in shards.new }
    ensures within { IsWithin left.old left.new (made_by strand.old) (made_by strand.new) }
    ensures whole { left.old ≡ None → IfOk result (λ ended. ended ≡ true) }
    ensures ended { IfOk result (λ ended. ended ≡ true → HasRun strand.new) }
    ensures fresh { IfOk result (λ ended. ended ≡ true
        → IsFresh B.batch B.opening (shards_in shards.new)) }
    ensures heard { IfOk result (λ ended. ended ≡ true → strand.new.strand.spent ≡ false
        → AllChildrenCovered B.batch.circuit (entries_in (shards_in shards.old))
        → AllChildrenCovered B.batch.circuit (entries_in (shards_in shards.new))) }
{
    strand.facts();
    'turns: while takes_turn(left) {
        if turn(strand, shards, design)? == Turned::NotReady {
            return Ok(true);
        }
    }
    Ok(false)
}

/// Runs strands that have made no turn one after another, each alone over the shards until it has ended, and makes no more turns than
/// `most`, where it is given. Returns whether no strand was refused a point, or none where turns may be left. Where none was refused, each
/// strand has heard its roots, and each point that was evaluated its children. If memory runs out, the turns before stay.
pub fn run_in_turn<B: BatchName>(
    strands: &mut [Strand<B>],
    shards: &mut [Shard<B>],
    design: BatchDesign<'_, B>,
    most: Option<u64>,
) -> Result<Option<bool>, OutOfMemory>
    requires some { 0 < length shards.old }
    requires shards { AreFree B.batch shards.old }
    requires strands { All IsUnused strands.old }
    ensures numbers { map (λ s. s.number) strands.new ≡ map (λ s. s.number) strands.old }
    ensures tasks { map task_of strands.new ≡ map task_of strands.old }
    ensures count { length shards.new ≡ length shards.old }
    ensures order { AreInOrder shards.new }
    ensures counted { made_in strands.new + booked_in shards.old
        ≡ made_in strands.old + booked_in shards.new }
    ensures most { (n : ℕ) → most ≡ Some n → made_in strands.new ≤ made_in strands.old + n }
    ensures whole { most ≡ None → IfOk result (λ unrefused. IsSome unrefused) }
    ensures ended { IfOk result (λ unrefused. IsSome unrefused → All HasRun strands.new) }
    ensures heard { entries_in (shards_in shards.old) ≡ []
        → IfOk result (λ unrefused. unrefused ≡ Some true
        → AllChildrenCovered B.batch.circuit (entries_in (shards_in shards.new))) }
    ensures served { IfOk result (λ unrefused. unrefused ≡ Some true
        → All (λ s. s.strand.spent ≡ false) strands.new) }
    ensures refused { IfOk result (λ unrefused. unrefused ≡ Some false
        → Any (λ s. s.strand.spent ≡ true) strands.new) }
{
    know_all(shards);
    let mut left = most;
    for number in 0..strands.len() {
        if !run_one(&mut strands[number], shards, design, &mut left)? {
            return Ok(None);
        }
    }
    Ok(Some(!strands.iter().any(|s| s.is_spent())))
}
