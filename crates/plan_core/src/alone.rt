//! A strand that runs alone.

ghost use Rattle.std.specs.Prelude.{◌≡◌, ◌<◌, ℕ, true, false, length, slice_get, IfOk, IfSome, OnOk, OnErr, Some, None};
ghost use Rattle.journal_meaning.specs.Lawful.{IsLawful};
ghost use Rattle.plan_machine.specs.declared.strand.Next.TheVariants.{Ask};
ghost use Rattle.journal_meaning.specs.Pieces.{Start};
ghost use Rattle.plan_machine.specs.Strands.{Strand as MachineStrand, next, next_in};
ghost use Rattle.journal_meaning.specs.declared.Entry.TheVariants as entry;
ghost use Rattle.plan_machine.specs.Shards.{shard_with_entry};
ghost use Rattle.memo_shards.specs.KeptShards.{IsKnownShard};
ghost use Rattle.memo_shards.specs.Asks.{IsHere, IsUnfound};
ghost use Rattle.memo_shards.specs.Ends.{with_shard};
ghost use Rattle.demand_points.specs.Demands.{Demand};
ghost use Rattle.plan_core.specs.inner.Parts.{plan_at, IsPlan};
ghost use Rattle.plan_core.specs.inner.Refusals.{IsRefusedAt, OfRefusal};
ghost use Rattle.valid_intervals.specs.declared.Point.{Point as PointRecord};

use crate::paused::Paused;
use crate::places::{next_at, strand_at};
use demand_points::{BatchName, Strand};
use memo_shards::{Shard, shard_number};
use plan_machine::Next;
use texts::OutOfMemory;
use valid_intervals::Point;

/// How a strand that ran alone ended.
#[derive(Clone, Copy, Debug, PartialEq, Eq)]
pub enum Alone {
    /// It has heard all its roots.
    Ended,
    /// The strand's budget is spent, and it was refused this point.
    Spent(Point),
}

/// The point that the strand in the place asks for, if there is one.
pub fn asked_at<B: BatchName>(places: &[Option<Paused<B>>], number: usize) -> Option<Point>
    requires { number < length places.now }
    ensures all { (s : Demand) (p : PointRecord) → slice_get places.now number ≡ Some (Some s)
        → next s.strand ≡ Ask p → result ≡ Some p }
    ensures only { IfSome result (λ p. (s : Demand) ×
        (slice_get places.now number ≡ Some (Some s)) × (next s.strand ≡ Ask p)) }
{
    match next_at(places, number) {
        Some(Next::Ask(p)) => Some(p),
        _ => None,
    }
}

/// Records in its shard that the spent strand was refused the point.
fn spend<B: BatchName>(
    shard: &mut Shard<B>,
    strand: &Strand<B>,
    p: Point,
) -> Result<(), OutOfMemory>
    requires spent { strand.now.strand.spent ≡ true }
    requires refused { next_in false strand.now.strand.roots strand.now.strand.stack ≡ Ask p }
    requires here { IsHere B.batch shard.old p }
    requires unfound { IsUnfound shard.old p }
    ensures ok { OnOk result (shard.new ≡ with_shard shard.old
        (shard_with_entry (entry.Spent strand.now.strand.query.number p (length
        strand.now.strand.stack))
        shard.old.shard)) }
    ensures err { OnErr result (shard.new ≡ shard.old) }
    ensures known { IsKnownShard B.batch B.opening shard.new }
{
    let spent = shard.spend(strand, p);
    shard.facts();
    spent
}

/// Records that the strand with this number was refused the point.
pub fn refuse<B: BatchName>(
    places: &[Option<Paused<B>>],
    shards: &mut Vec<Shard<B>>,
    number: usize,
    p: Point,
) -> Result<(), OutOfMemory>
    requires parts { IsPlan B.batch B.opening places.now shards.old.items }
    requires refused { IsRefusedAt (plan_at places.now shards.old.items) number p }
    ensures { OfRefusal B.batch B.opening (plan_at places.now shards.old.items) number p places.now
        shards.new.items result }
{
    let home = shard_number(p.signal, shards.len());
    match strand_at(places, number) {
        Some(strand) => spend(&mut shards[home], strand, p),
        None => unreachable!(),
    }
}
