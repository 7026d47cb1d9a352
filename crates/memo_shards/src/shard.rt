//! A shard of the memo.

ghost use Rattle.std.specs.Prelude.{◌≡◌, ◌<◌, ◌≤◌, ◌+◌, ◌*◌, true, false, [], ◌++◌, length, map, All, IsTrue, ◌↔◌, IsSome, Some, None, Ok, OnOk, OnErr, IfOk, vec_len, vec_capacity};
ghost use Rattle.std.specs.List.{AllByRecursion, list_any};
ghost use Rattle.cell_store.specs.Recency.{contents};
ghost use Rattle.circuit_meaning.specs.Cells.{cell_at};
ghost use Rattle.claim_waiters.specs.Claims.{claim_at, without_claim};
ghost use Rattle.journal_meaning.specs.Allowed.{IsRight};
ghost use Rattle.journal_meaning.specs.States.{holder};
ghost use Rattle.journal_meaning.specs.Batches.{shard_number};
ghost use Rattle.journal_meaning.specs.Lawful.{IsLawful};
ghost use Rattle.journal_meaning.specs.declared.Entry.TheVariants as entry;
ghost use Rattle.demand_points.specs.Demands.{IsAskedCell};
ghost use Rattle.plan_machine.specs.Strands.{next, next as next_of, next_in};
ghost use Rattle.plan_machine.specs.declared.strand.Next.TheVariants.{Ask, Fill, Drop};
ghost use Rattle.valid_intervals.specs.Cells.{stored_at};
ghost use Rattle.plan_machine.specs.Shards.{shard_with_entry};
ghost use Rattle.memo_shards.specs.KeptShards.{shard_at, IsKnownShard};
ghost use Rattle.memo_shards.specs.Asks.{IsHere, IsUnfound, OfPark};
ghost use Rattle.memo_shards.specs.Grants.{IsGranted, IsRequest, OfGrant, TakesBack, TakesCell, step_of};
ghost use Rattle.memo_shards.specs.inner.Grants.{OfTell};
ghost use Rattle.memo_shards.specs.Ends.{FreesAll, with_shard};
ghost use Rattle.memo_shards.specs.Steps.{MayStep, OfStep};
ghost use Rattle.memo_shards.specs.inner.Ends.{drop_of};

use crate::grant::Grant;
use crate::request::Request;
use crate::room::{make_room, record_fill, told};
use crate::steps::Step;
use crate::wake::hear_all;
use cell_store::CellStore;
use claim_waiters::ClaimTable;
use demand_points::{BatchDesign, BatchName, Strand};
use journal_meaning::Entry;
use plan_machine::Next;
use std::alloc::Global;
use std::marker::Model;
use texts::OutOfMemory;
use valid_intervals::{Cell, Point};

/// The number of the shard that has the points of a signal, of so many shards.
pub fn shard_number(signal: u32, count: usize) -> usize
    requires { 0 < count }
    ensures number { result ≡ shard_number signal count }
    ensures within { result < count }
{
    let signal = signal as usize;
    // By a constant power of two the compiler masks; a division takes some thirty times as long.
    match count {
        8 => signal % 8,
        16 => signal % 16,
        32 => signal % 32,
        64 => signal % 64,
        _ => signal % count,
    }
}

/// One shard of the memo, in the batch that B names.
#[derive(Drop)]
pub struct Shard<B: BatchName> {
    // what nearly each step writes stands first, on as few cache lines as may be
    number: u32,
    journal: Vec<Entry>,
    claims: ClaimTable<Strand<B>>,
    store: CellStore,
}

impl<B: BatchName> Model for Shard<B> {
    ghost use Rattle.memo_shards.specs.KeptShards.{KeptShard};

    ghost Value = { KeptShard };

    ghost use Rattle.memo_shards.specs.inner.View.{kept_shard, IsMemo};

    ghost view = { λ s. kept_shard (B.opening s.number) s };

    ghost invariant = { λ s. IsMemo B.batch (B.opening s.number) s };
}

impl<B: BatchName> Shard<B> {
    /// The shard with this number, as the batch begins.
    pub fn begin(alloc: Global, number: u32, store: CellStore) -> Shard<B>
        requires lawful { IsLawful B.batch }
        requires number { number < B.batch.shards }
        requires opening { store ≡ contents B.batch.capacity (B.opening number) }
        requires right { AllByRecursion (IsRight B.batch.circuit) (B.opening number) }
        ensures { result ≡ record {
          number = number;
          shard = shard_at (B.opening number) [];
          waiting
              = [];
        } }
    {
        store.facts();
        Shard {
            number,
            store,
            claims: ClaimTable::new(alloc),
            journal: Vec::new(alloc),
        }
    }

    /// The law of every shard: its journal is legal, its cells are right, and who waits waits at a claim. A plan needs it of its shards,
    /// and whoever hands them on.
    pub fn facts(&self)
        ensures { IsKnownShard B.batch B.opening self.now }
    {
        // A proof knows the invariant of a value whose field the body reads.
        let _ = &self.store;
    }

    /// Its number.
    pub fn number(&self) -> u32
        ensures { result ≡ self.now.number }
    {
        self.number
    }

    /// What it has recorded in this batch.
    pub fn journal(&self) -> &[Entry]
        ensures { result.now ≡ self.now.shard.journal }
    {
        &self.journal
    }

    /// Whether the point is claimed here for the query with this number.
    pub fn holds(&self, p: Point, q: u32) -> bool
        ensures { IsTrue result ↔ (holder self.now.shard.state.claims p ≡ Some q) }
    {
        self.claims.holder(p) == Some(q)
    }
}

impl<B: BatchName> Shard<B> {
    // Tells the cell that covers the point, if one is stored. Nearly each step of either kind calls it, so it stands in both.
    #[inline(always)]
    fn tell(&mut self, strand: &Strand<B>, p: Point) -> Result<Option<Cell>, OutOfMemory>
        requires asks { next strand.now.strand ≡ Ask p }
        requires here { IsHere B.batch self.old p }
        ensures { OfTell B.batch self.old self.new p strand.now result }
    {
        strand.facts();
        let q = strand.query().number;
        make_room(&mut self.journal, self.claims.len(), 1)?;
        match self.store.find(p) {
            Some(cell) => {
                self.journal.push_reserved(told(q, p, &cell));
                Ok(Some(cell))
            }
            None => Ok(None),
        }
    }

    // Gives the claim of the point to the strand's query, if the point is free.
    fn give_claim(&mut self, strand: &Strand<B>, p: Point) -> Result<Grant<B>, OutOfMemory>
        requires asks { next strand.now.strand ≡ Ask p }
        requires here { IsHere B.batch self.old p }
        requires missed { stored_at self.old.shard.state.cells p ≡ None }
        requires within { strand.now.strand.charged < strand.now.strand.budget }
        ensures grant { OfGrant B.batch self.old self.new (Ask p) strand.now result }
        ensures right { IfOk result (IsGranted B.batch strand.now) }
    {
        strand.facts();
        let q = strand.query().number;
        make_room(&mut self.journal, self.claims.len(), 3)?;
        if !self.claims.claim(q, p)? {
            return Ok(Grant::Taken);
        }
        self.journal.push_reserved(Entry::Claimed { q, p });
        Ok(Grant::Claimed(p))
    }

    // What an ask is granted: the stored cell that covers the point, else the claim of the point, if it is free and the budget has room.
    fn ask(&mut self, strand: &Strand<B>, p: Point) -> Result<Grant<B>, OutOfMemory>
        requires asks { next strand.now.strand ≡ Ask p }
        requires here { IsHere B.batch self.old p }
        ensures grant { OfGrant B.batch self.old self.new (Ask p) strand.now result }
        ensures right { IfOk result (IsGranted B.batch strand.now) }
    {
        if let Some(cell) = self.tell(strand, p)? {
            return Ok(Grant::Told(cell));
        }
        if strand.charge() < strand.task().budget {
            return self.give_claim(strand, p);
        }
        if self.claims.holder(p).is_some() {
            return Ok(Grant::Taken);
        }
        Ok(Grant::Refused)
    }

    // Takes the cell of the claimed point. Those that waited for it come out.
    #[inline(always)]
    fn fill(
        &mut self,
        strand: &Strand<B>,
        p: Point,
        cell: &Cell,
    ) -> Result<Vec<Strand<B>>, OutOfMemory>
        requires claimed { holder self.old.shard.state.claims p
            ≡ Some strand.now.strand.query.number }
        requires right { cell.now ≡ cell_at B.batch.circuit p }
        ensures taken { IfOk result (λ waited. TakesCell B.batch self.old self.new p strand.now
            cell.now waited.items) }
        ensures asked { IfOk result (λ waited. AllByRecursion
            (λ s. IsAskedCell B.batch.circuit s.strand cell.now) waited.items) }
        ensures err { OnErr result (self.new ≡ self.old) }
    {
        self.claims.facts();
        let q = strand.query().number;
        record_fill(&mut self.store, &mut self.journal, q, p, cell)?;
        Ok(self.claims.take(p))
    }

    // Takes the claim of the point back. Those that waited for it come out.
    fn take_back(&mut self, strand: &Strand<B>, p: Point) -> Vec<Strand<B>>
        requires claimed { holder self.old.shard.state.claims p
            ≡ Some strand.now.strand.query.number }
        ensures { TakesBack self.old self.new p strand.now result.items }
    {
        self.claims.facts();
        let q = strand.query().number;
        let waited = self.claims.take(p);
        self.journal.push_reserved(Entry::Dropped { q, p });
        waited
    }

    /// Makes the shard's half of the strand's next step: what the strand may do then is granted, and recorded. An ask is told the stored
    /// cell that covers the point. Else it is given the claim, if the point is free, or is refused it where its budget is spent. Where the
    /// point is claimed, or memory runs out, nothing changes. Those that waited for a point that is filled or given up come out in their
    /// order.
    pub fn grant(&mut self, strand: &Strand<B>, request: Request) -> Result<Grant<B>, OutOfMemory>
        requires request { IsRequest B.batch strand.now request }
        requires stands { MayStep B.batch self.old (step_of request) strand.now }
        ensures grant { OfGrant B.batch self.old self.new (step_of request) strand.now result }
        ensures right { IfOk result (IsGranted B.batch strand.now) }
    {
        match request {
            Request::Ask(p) => self.ask(strand, p),
            Request::Fill(p, cell) => {
                let waited = self.fill(strand, p, &cell)?;
                Ok(Grant::Filled(cell, waited))
            }
            Request::Drop(p) => Ok(Grant::Dropped(self.take_back(strand, p))),
        }
    }
}

impl<B: BatchName> Shard<B> {
    // Claims the point for the strand, if it is free.
    fn claim(
        &mut self,
        strand: &mut Strand<B>,
        design: BatchDesign<'_, B>,
        p: Point,
    ) -> Result<Step<B>, OutOfMemory>
        requires asks { next strand.old.strand ≡ Ask p }
        requires here { IsHere B.batch self.old p }
        requires missed { stored_at self.old.shard.state.cells p ≡ None }
        requires within { strand.old.strand.charged < strand.old.strand.budget }
        ensures { OfStep B.batch self.old self.new (Ask p) strand.old strand.new result }
    {
        strand.facts();
        let q = strand.query().number;
        make_room(&mut self.journal, self.claims.len(), 3)?;
        if !self.claims.claim(q, p)? {
            return Ok(Step::Taken);
        }
        match strand.take_claim(design, p) {
            Ok(()) => {
                self.journal.push_reserved(Entry::Claimed { q, p });
                Ok(Step::Holds)
            }
            Err(error) => {
                end_claim(&mut self.claims, p);
                Err(error)
            }
        }
    }

    // Asks for the point that the strand needs next. A claim is recorded once the strand has taken it.
    fn answer(
        &mut self,
        strand: &mut Strand<B>,
        design: BatchDesign<'_, B>,
        p: Point,
    ) -> Result<Step<B>, OutOfMemory>
        requires asks { next strand.old.strand ≡ Ask p }
        requires here { IsHere B.batch self.old p }
        ensures { OfStep B.batch self.old self.new (Ask p) strand.old strand.new result }
    {
        if let Some(cell) = self.tell(strand, p)? {
            strand.hear(design, cell);
            return Ok(Step::Heard);
        }
        if strand.charge() < strand.task().budget {
            return self.claim(strand, design, p);
        }
        if self.claims.holder(p).is_some() {
            return Ok(Step::Taken);
        }
        strand.give_up();
        Ok(Step::Refused)
    }

    // Fills the claimed point on top of the strand's stack. Those that wait for it hear the cell.
    fn fill_top(
        &mut self,
        strand: &mut Strand<B>,
        design: BatchDesign<'_, B>,
        p: Point,
    ) -> Result<Step<B>, OutOfMemory>
        requires fills { next strand.old.strand ≡ Fill p }
        requires claimed { holder self.old.shard.state.claims p
            ≡ Some strand.old.strand.query.number }
        ensures { OfStep B.batch self.old self.new (Fill p) strand.old strand.new result }
    {
        let cell = strand.top_cell(design);
        let mut woken = self.fill(strand, p, &cell)?;
        hear_all(&mut woken, design, &cell);
        strand.finish_with(design, &cell);
        Ok(Step::Filled(woken))
    }

    // Gives up the claimed point on top of the stack of a spent strand.
    fn drop_top(&mut self, strand: &mut Strand<B>, p: Point) -> Step<B>
        requires drops { next strand.old.strand ≡ Drop p }
        requires claimed { holder self.old.shard.state.claims p
            ≡ Some strand.old.strand.query.number }
        ensures { OfStep B.batch self.old self.new (Drop p) strand.old strand.new (Ok result) }
    {
        let woken = self.take_back(strand, p);
        let _ = strand.drop_top();
        Step::Dropped(woken)
    }

    /// Makes the next step of the strand. Where its point is claimed, or memory runs out, nothing changes. Those that waited for a point
    /// that it fills or gives up come back in their order, and have heard the cell of a filled one.
    pub fn step(
        &mut self,
        strand: &mut Strand<B>,
        design: BatchDesign<'_, B>,
        next: Next,
    ) -> Result<Step<B>, OutOfMemory>
        requires next { next_of strand.old.strand ≡ next }
        requires stands { MayStep B.batch self.old next strand.old }
        ensures { OfStep B.batch self.old self.new next strand.old strand.new result }
    {
        match next {
            Next::Ask(p) => self.answer(strand, design, p),
            Next::Fill(p) => self.fill_top(strand, design, p),
            Next::Drop(p) => Ok(self.drop_top(strand, p)),
            Next::Done => unreachable!(),
        }
    }
}

impl<B: BatchName> Shard<B> {
    /// Lets the strand wait at the claimed point. Where memory runs out, the strand comes back.
    pub fn park(&mut self, strand: Strand<B>, p: Point) -> Result<(), (Strand<B>, OutOfMemory)>
        requires asks { next strand.strand ≡ Ask p }
        requires missed { stored_at self.old.shard.state.cells p ≡ None }
        requires claimed { IsSome (holder self.old.shard.state.claims p) }
        ensures { OfPark self.old self.new p strand result }
    {
        self.claims.facts();
        self.claims.wait(p, strand)
    }

    /// Records that the spent strand was refused the point.
    pub fn spend(&mut self, strand: &Strand<B>, p: Point) -> Result<(), OutOfMemory>
        requires spent { strand.now.strand.spent ≡ true }
        requires refused { next_in false strand.now.strand.roots strand.now.strand.stack ≡ Ask p }
        requires here { IsHere B.batch self.old p }
        requires unfound { IsUnfound self.old p }
        ensures ok { OnOk result (self.new ≡ with_shard self.old
            (shard_with_entry (entry.Spent strand.now.strand.query.number p
            (length strand.now.strand.stack)) self.old.shard)) }
        ensures err { OnErr result (self.new ≡ self.old) }
    {
        strand.facts();
        let q = strand.query().number;
        let claims = strand.claims() as u32;
        make_room(&mut self.journal, self.claims.len(), 1)?;
        self.journal.push_reserved(Entry::Spent { q, p, claims });
        Ok(())
    }

    /// Gives up every claim, by signal and then by time, and those that wait.
    pub fn free_claims(&mut self)
        ensures { FreesAll self.old self.new }
    {
        self.claims.facts();
        drop_all(&mut self.claims, &mut self.journal);
    }

    /// The store and the journal, as the batch ends.
    pub fn end_batch(self) -> (CellStore, Vec<Entry>)
        requires { self.shard.state.claims ≡ [] }
        ensures store { result.0 ≡ contents B.batch.capacity self.shard.state.cells }
        ensures journal { result.1.items ≡ self.shard.journal }
    {
        let Shard {
            number: _,
            store,
            claims: _,
            journal,
        } = self;
        (store, journal)
    }
}

/// The law of each shard of a list. Whoever makes a plan or a memo of shards needs it.
pub fn know_all<B: BatchName>(shards: &[Shard<B>])
    ensures { All (IsKnownShard B.batch B.opening) shards.now }
{
    for shard in shards {
        shard.facts();
    }
}

// Ends a claim, and gives up those that wait.
fn end_claim<B: BatchName>(claims: &mut ClaimTable<Strand<B>>, p: Point)
    requires { IsSome (claim_at claims.old p) }
    ensures { claims.new ≡ without_claim claims.old p }
{
    let _waiters = claims.take(p);
}

// Ends every claim with an entry, in their order.
fn drop_all<B: BatchName>(claims: &mut ClaimTable<Strand<B>>, journal: &mut Vec<Entry>)
    requires { vec_len journal.old + 2 * length claims.old ≤ vec_capacity journal.old }
    ensures claims { claims.new ≡ [] }
    ensures items { journal.new.items ≡ journal.old.items ++ map drop_of claims.old }
    ensures room { vec_len journal.new ≤ vec_capacity journal.new }
{
    'claims: loop {
        match claims.first() {
            None => return,
            Some((q, p)) => {
                end_claim(claims, p);
                journal.push_reserved(Entry::Dropped { q, p });
            }
        }
    }
}
