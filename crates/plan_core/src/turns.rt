//! One turn, over the parts of a plan.

ghost use Rattle.std.specs.Prelude.{◌≡◌, ◌<◌, IsSome, Some, None, length};
ghost use Rattle.journal_meaning.specs.States.{holder};
ghost use Rattle.plan_machine.specs.Strands.{next};
ghost use Rattle.plan_machine.specs.declared.strand.Next.TheVariants.{Ask};
ghost use Rattle.valid_intervals.specs.Cells.{stored_at};
ghost use Rattle.demand_points.specs.Demands.{Demand};
ghost use Rattle.memo_shards.specs.KeptShards.{IsKnownShard};
ghost use Rattle.memo_shards.specs.Steps.{MayStep, step_point};
ghost use Rattle.plan_core.specs.inner.Parts.{plan_at, IsPlan};
ghost use Rattle.plan_core.specs.inner.Turns.{OfPlaceStep, OfTurn};

use crate::paused::Paused;
use crate::places::{next_at, put_back};
use demand_points::{BatchDesign, BatchName, Strand};
use memo_shards::{Shard, Step, shard_number, step_point};
use plan_machine::Turned;
use texts::OutOfMemory;
use valid_intervals::Point;

/// The result of a turn, and the strands that came out of a claim if it ended one.
type Came<B> = (Turned, Option<Vec<Strand<B>>>);

/// Lets the strand wait at the claimed point. Where memory runs out, it stays in its place.
fn park<B: BatchName>(
    shard: &mut Shard<B>,
    place: &mut Option<Paused<B>>,
    design: BatchDesign<'_, B>,
    p: Point,
) -> Result<Came<B>, OutOfMemory>
    requires asks { (s : Demand) × ((place.old ≡ Some s) × (next s.strand ≡ Ask p)) }
    requires missed { stored_at shard.old.shard.state.cells p ≡ None }
    requires claimed { IsSome (holder shard.old.shard.state.claims p) }
    ensures { (s : Demand) → place.old ≡ Some s
        → OfPlaceStep B.batch shard.old shard.new s result place.new }
{
    let Some(paused) = place.take() else {
        unreachable!();
    };
    match shard.park(paused.into_strand(), p) {
        Ok(()) => Ok((Turned::Waits, None)),
        Err((strand, error)) => {
            *place = Some(Paused::new(strand, design));
            Err(error)
        }
    }
}

/// Makes the next step of the strand in the place at the shard of its point. Only where the point is claimed the strand leaves its place,
/// and waits.
fn step<B: BatchName>(
    shard: &mut Shard<B>,
    place: &mut Option<Paused<B>>,
    design: BatchDesign<'_, B>,
    p: Point,
) -> Result<Came<B>, OutOfMemory>
    requires stands { (s : Demand) × ((place.old ≡ Some s) ×
        (MayStep B.batch shard.old (next s.strand) s × (p ≡ step_point (next s.strand)))) }
    ensures came { (s : Demand) → place.old ≡ Some s
        → OfPlaceStep B.batch shard.old shard.new s result place.new }
    ensures known { IsKnownShard B.batch B.opening shard.new }
{
    let Some(paused) = place else {
        unreachable!();
    };
    let came = match paused.step(shard, design) {
        Ok(Step::Heard) => Ok((Turned::Told, None)),
        Ok(Step::Holds) => Ok((Turned::Claimed, None)),
        Ok(Step::Taken) => park(shard, place, design, p),
        Ok(Step::Refused) => Ok((Turned::Spent, None)),
        Ok(Step::Filled(woken)) => Ok((Turned::Filled, Some(woken))),
        Ok(Step::Dropped(woken)) => Ok((Turned::Dropped, Some(woken))),
        Err(error) => Err(error),
    };
    shard.facts();
    came
}

/// A turn of the strand with this number.
pub fn turn<B: BatchName>(
    places: &mut Vec<Option<Paused<B>>>,
    shards: &mut Vec<Shard<B>>,
    design: BatchDesign<'_, B>,
    number: usize,
) -> Result<Turned, OutOfMemory>
    requires parts { IsPlan B.batch B.opening places.old.items shards.old.items }
    requires number { number < length places.old.items }
    ensures { OfTurn B.batch B.opening (plan_at places.old.items shards.old.items) number
        places.new.items shards.new.items result }
{
    let Some(next) = next_at(places, number) else {
        return Ok(Turned::NotReady);
    };
    let Some(p) = step_point(next) else {
        return Ok(Turned::NotReady);
    };
    let home = shard_number(p.signal, shards.len());
    let (turned, woken) = step(&mut shards[home], &mut places[number], design, p)?;
    if let Some(woken) = woken {
        put_back(places, woken, design);
    }
    Ok(turned)
}
