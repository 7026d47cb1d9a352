//! A strand between its steps.

ghost use Rattle.std.specs.Prelude.{◌≡◌};
ghost use Rattle.plan_machine.specs.Strands.{next};
ghost use Rattle.demand_points.specs.Demands.{TakesStep, itself};
ghost use Rattle.memo_shards.specs.Steps.{MayStep, OfStep};

use demand_points::{BatchDesign, BatchName, Strand};
use memo_shards::{Shard, Step};
use plan_machine::Next;
use std::marker::Model;
use texts::OutOfMemory;

/// A strand that has heard all base answers, with its next step.
#[derive(Drop)]
pub struct Paused<B: BatchName> {
    strand: Strand<B>,
    step: Next,
}

impl<B: BatchName> Model for Paused<B> {
    ghost use Rattle.std.specs.Prelude.{◌≡◌};
    ghost use Rattle.demand_points.specs.Demands.{Demand};
    ghost use Rattle.plan_machine.specs.Strands.{next};

    ghost Value = { Demand };

    ghost view = { λ s. s.strand };

    ghost invariant = { λ s. s.step ≡ next s.strand.strand };
}

impl<B: BatchName> Paused<B> {
    /// Brings a strand to its next step.
    pub fn new(mut strand: Strand<B>, design: BatchDesign<'_, B>) -> Paused<B>
        ensures { TakesStep itself strand result }
    {
        let step = strand.next_step(design);
        Paused { strand, step }
    }

    /// The next step.
    pub fn next(&self) -> Next
        ensures { result ≡ next self.now.strand }
    {
        self.step
    }

    pub fn strand(&self) -> &Strand<B>
        ensures { result.now ≡ self.now }
    {
        &self.strand
    }

    /// Makes the next step at the shard of its point, and goes on to the one after it unless the point is claimed. Returns what came of it.
    /// Where memory runs out, nothing changes.
    pub fn step(
        &mut self,
        shard: &mut Shard<B>,
        design: BatchDesign<'_, B>,
    ) -> Result<Step<B>, OutOfMemory>
        requires stands { MayStep B.batch shard.old (next self.old.strand) self.old }
        ensures { OfStep B.batch shard.old shard.new (next self.old.strand) self.old self.new
            result }
    {
        match shard.step(&mut self.strand, design, self.step)? {
            Step::Taken => Ok(Step::Taken),
            came => {
                self.step = self.strand.next_step(design);
                Ok(came)
            }
        }
    }

    pub fn into_strand(self) -> Strand<B>
        ensures { result ≡ self }
    {
        let Paused { strand, step: _ } = self;
        strand
    }
}
