//! The plan.

ghost use Rattle.std.specs.Prelude.{◌≡◌, ◌<◌, ℕ, true, false, length, slice_get, IfOk, OnOk, OnErr, Some};
ghost use Rattle.journal_meaning.specs.Lawful.{IsLawful};
ghost use Rattle.journal_meaning.specs.Pieces.{Start};
ghost use Rattle.plan_machine.specs.Strands.{started_strand, Strand as MachineStrand};
ghost use Rattle.plan_machine.specs.Plans.{Plan as PlanRecord};
ghost use Rattle.plan_machine.specs.Laws.{BeginsAlone};
ghost use Rattle.plan_machine.specs.Alone.{plan_refusing, RunsAlone, RanAlone};
ghost use Rattle.plan_core.specs.inner.Refusals.{IsRefusedAt, AsksFor};
ghost use Rattle.plan_core.specs.Refusals.{point_of, StopsAlone};
ghost use Rattle.plan_machine.specs.declared.strand.Next.TheVariants.{Ask};
ghost use Rattle.valid_intervals.specs.declared.Point.{Point as PointRecord};
ghost use Rattle.plan_machine.specs.Steps.{turn_outcome};
ghost use Rattle.plan_machine.specs.Turns.{turn};
ghost use Rattle.plan_machine.specs.Bounds.{all_left};
ghost use Rattle.plan_machine.specs.Sound.{IsSound};
ghost use Rattle.demand_points.specs.Demands.{Demand};
ghost use Rattle.plan_core.specs.Parts.{AreFreshStrands, AreFree, AreInOrder, plan_of_new, shards_in};

use crate::alone::{Alone, asked_at, refuse};
use crate::paused::Paused;
use crate::places::pause_all;
use crate::turns;
use demand_points::{BatchDesign, BatchName, Strand};
use memo_shards::{Shard, know_all};
use plan_machine::Turned;
use std::alloc::Global;
use std::marker::Model;
use texts::OutOfMemory;
use valid_intervals::Point;

/// The strands of a batch, each ready, waiting or ended, and the shards.
#[derive(Drop)]
pub struct Plan<B: BatchName> {
    places: Vec<Option<Paused<B>>>,
    shards: Vec<Shard<B>>,
}

impl<B: BatchName> Model for Plan<B> {
    ghost use Rattle.plan_machine.specs.Plans.{Plan};

    ghost Value = { Plan };

    ghost use Rattle.plan_core.specs.inner.Parts.{plan_at, IsPlan};

    ghost view = { λ k. plan_at k.places.items k.shards.items };

    ghost invariant = { λ k. IsPlan B.batch B.opening k.places.items k.shards.items };
}

impl<B: BatchName> Plan<B> {
    /// The plan of these strands, none of which has made a turn, and of these shards. Each strand is advanced to its next step, so one that
    /// base answers complete has ended.
    pub fn new(
        alloc: Global,
        design: BatchDesign<'_, B>,
        strands: Vec<Strand<B>>,
        shards: Vec<Shard<B>>,
    ) -> Result<Plan<B>, OutOfMemory>
        requires lawful { IsLawful B.batch }
        requires strands { AreFreshStrands B.batch strands.items }
        requires shards { AreFree B.batch shards.items }
        ensures ok { IfOk result (λ plan. plan ≡ plan_of_new strands.items shards.items) }
        ensures alone { (n : ℕ) (a : Start) (s : Demand) → slice_get strands.items n ≡ Some s
            → s.strand ≡ started_strand B.batch.circuit a
            → IfOk result (BeginsAlone B.batch B.opening n a) }
    {
        know_all(&shards);
        let places = pause_all(alloc, strands, design)?;
        Ok(Plan { places, shards })
    }

    /// The law of every plan: it is one of a lawful batch, and sound. Whoever starts a strand of it alone needs it.
    pub fn facts(&self)
        ensures lawful { IsLawful B.batch }
        ensures sound { IsSound B.batch B.opening self.now }
    {
        // A proof knows the invariant of a value whose field the body reads.
        let _ = &self.places;
    }

    /// One turn of the strand with this number. If memory runs out, nothing changes.
    pub fn turn(&mut self, design: BatchDesign<'_, B>, number: u32) -> Result<Turned, OutOfMemory>
        requires number { number < length self.old.strands }
        ensures comes { IfOk result (λ t. t ≡ turn_outcome self.old number) }
        ensures ok { OnOk result (self.new ≡ turn B.batch self.old number) }
        ensures count { length self.new.strands ≡ length self.old.strands }
        ensures err { OnErr result (self.new ≡ self.old) }
    {
        turns::turn(&mut self.places, &mut self.shards, design, number as usize)
    }

    // The point that the strand with this number asks for.
    fn asked(&self, number: u32) -> Option<Point>
        requires { number < length self.now.strands }
        ensures { (p : PointRecord) → AsksFor self.now number p → result ≡ Some p }
    {
        asked_at(&self.places, number as usize)
    }

    // Records that the strand with this number was refused the point.
    fn refuse(&mut self, number: u32, p: Point) -> Result<(), OutOfMemory>
        requires { IsRefusedAt self.old number p }
        ensures ok { OnOk result ((s : MachineStrand) ×
            ((slice_get self.old.strands number ≡ Some s) ×
            (self.new ≡ plan_refusing self.old s (Ask p)))) }
        ensures err { OnErr result (self.new ≡ self.old) }
    {
        refuse(&self.places, &mut self.shards, number as usize, p)
    }

    // One turn of a strand that runs alone. Returns whether it goes on.
    fn turn_alone(
        &mut self,
        design: BatchDesign<'_, B>,
        number: u32,
        alone: &mut Alone,
    ) -> Result<bool, OutOfMemory>
        requires lawful { IsLawful B.batch }
        requires number { number < length self.old.strands }
        ensures count { length self.new.strands ≡ length self.old.strands }
        ensures less { IfOk result (λ more. more ≡ true
            → all_left B.batch self.new < all_left B.batch self.old) }
        ensures runs { (a : Start) (old : PlanRecord)
            → RunsAlone B.batch B.opening number a old self.old (point_of alone.old)
            → OnOk result (RunsAlone B.batch B.opening number a old self.new (point_of alone.new)) }
        ensures ended { (a : Start) (old : PlanRecord)
            → RunsAlone B.batch B.opening number a old self.old (point_of alone.old)
            → IfOk result (λ more. more ≡ false
            → RanAlone B.batch B.opening number a old self.new (point_of alone.new)) }
        ensures stops { (a : Start) (old : PlanRecord)
            → RunsAlone B.batch B.opening number a old self.old (point_of alone.old)
            → OnErr result (StopsAlone B.batch B.opening number a old self.new) }
    {
        let asked = self.asked(number);
        match self.turn(design, number)? {
            Turned::NotReady => Ok(false),
            Turned::Spent => {
                let Some(p) = asked else { unreachable!() };
                self.refuse(number, p)?;
                *alone = Alone::Spent(p);
                Ok(true)
            }
            _ => Ok(true),
        }
    }

    /// Turns of one strand alone until it has ended. If it is refused for its budget, this is recorded before it drops what it holds. If
    /// memory runs out, the turns before stay, and all are this strand's.
    pub fn run_alone(
        &mut self,
        design: BatchDesign<'_, B>,
        number: u32,
    ) -> Result<Alone, OutOfMemory>
        requires number { number < length self.old.strands }
        ensures ran { (a : Start) → BeginsAlone B.batch B.opening number a self.old
            → IfOk result (λ alone. RanAlone B.batch B.opening number a self.old self.new
            (point_of alone)) }
        ensures stops { (a : Start) → BeginsAlone B.batch B.opening number a self.old
            → OnErr result (StopsAlone B.batch B.opening number a self.old self.new) }
    {
        self.facts();
        let mut alone = Alone::Ended;
        'turns: while self.turn_alone(design, number, &mut alone)? {}
        Ok(alone)
    }

    /// The shards, in order.
    pub fn into_shards(self) -> Vec<Shard<B>>
        ensures shards { shards_in result.items ≡ self.shards }
        ensures order { AreInOrder result.items }
    {
        let Plan { places: _, shards } = self;
        shards
    }
}
