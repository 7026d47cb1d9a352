//! What the lock of a shard keeps.

ghost use Rattle.std.specs.Prelude.{◌≡◌, ◌<◌, ◌-◌, ◌^◌, true, None, IfOk, IfSome, IsSome};
ghost use Rattle.journal_meaning.specs.Batches.{shard_number};
ghost use Rattle.journal_meaning.specs.States.{holder};
ghost use Rattle.plan_machine.specs.Strands.{next as next_of};
ghost use Rattle.plan_machine.specs.declared.strand.Next.TheVariants as next;
ghost use Rattle.valid_intervals.specs.Cells.{stored_at};
ghost use Rattle.valid_intervals.specs.declared.Point.{Point};
ghost use Rattle.memo_shards.specs.Asks.{OfPark};
ghost use Rattle.memo_shards.specs.Steps.{MayStep};
ghost use Rattle.memo_shards.specs.Grants.{IsGranted, IsRequest, OfGrant, step_of};
ghost use Rattle.memo_shards.specs.declared.request.Request.TheVariants.{Ask};
ghost use Rattle.plan_core.specs.InTurn.{booked_by};

use demand_points::{BatchName, Strand};
use memo_shards::{Grant, Request, Shard};
use texts::OutOfMemory;
use valid_intervals::Point;

/// A shard, and how many claims and fills it has recorded.
#[derive(Drop)]
pub struct CountedShard<B: BatchName> {
    pub booked: u64,
    pub shard: Shard<B>,
    ghost amount: { booked ≡ booked_by shard },
}

impl<B: BatchName> CountedShard<B> {
    /// Whether the shard with this number is this one, can count one more claim or fill, and has the claim that the strand's next step
    /// ends.
    pub fn can_grant(&self, strand: &Strand<B>, request: Request, number: usize) -> bool
        requires home { (p : Point) → request ≡ Ask p
            → number ≡ shard_number p.signal B.batch.shards }
        ensures stands { result ≡ true → MayStep B.batch self.now.shard (step_of request)
            strand.now }
        ensures room { result ≡ true → self.now.booked < 2 ^ 64 - 1 }
    {
        let stands = match request {
            Request::Ask(_) => self.shard.number() as usize == number,
            Request::Fill(p, _) => self.shard.holds(p, strand.query().number),
            Request::Drop(p) => self.shard.holds(p, strand.query().number),
        };
        stands && self.booked < u64::MAX
    }

    /// Makes the shard's half of the strand's next step, and books a claim or a fill.
    pub fn grant(&mut self, strand: &Strand<B>, request: Request) -> Result<Grant<B>, OutOfMemory>
        requires room { self.old.booked < 2 ^ 64 - 1 }
        requires request { IsRequest B.batch strand.now request }
        requires stands { MayStep B.batch self.old.shard (step_of request) strand.now }
        ensures grant { OfGrant B.batch self.old.shard self.new.shard (step_of request) strand.now
            result }
        ensures right { IfOk result (IsGranted B.batch strand.now) }
    {
        let CountedShard { shard, booked } = self;
        let grant = shard.grant(strand, request)?;
        match &grant {
            Grant::Claimed(_) => *booked += 1,
            Grant::Filled(_, _) => *booked += 1,
            Grant::Told(_) => {}
            Grant::Taken => {}
            Grant::Refused => {}
            Grant::Dropped(_) => {}
        }
        Ok(grant)
    }

    /// Lets the strand wait at the claimed point.
    pub fn park(&mut self, strand: Strand<B>, p: Point) -> Result<(), (Strand<B>, OutOfMemory)>
        requires asks { next_of strand.strand ≡ next.Ask p }
        requires missed { stored_at self.old.shard.shard.state.cells p ≡ None }
        requires claimed { IsSome (holder self.old.shard.shard.state.claims p) }
        ensures { OfPark self.old.shard self.new.shard p strand result }
    {
        self.shard.park(strand, p)
    }
}

/// What stands under the lock of a shard.
#[derive(Drop)]
pub struct Slot<B: BatchName> {
    pub content: Option<CountedShard<B>>,
}

impl<B: BatchName> Slot<B> {
    /// The shard, where it is there and has this number.
    pub fn take(&mut self, number: u32) -> Option<CountedShard<B>>
        ensures { IfSome result (λ h. h.shard.number ≡ number) }
    {
        match &self.content {
            Some(h) if h.shard.number() == number => self.content.take(),
            _ => None,
        }
    }
}
