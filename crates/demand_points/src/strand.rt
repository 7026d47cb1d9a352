//! A strand of a batch.

ghost use Rattle.std.specs.Prelude.{◌≡◌, ◌≤◌, ◌<◌, [], length, None, IfSome, OnOk, OnErr};
ghost use Rattle.circuit_meaning.specs.Need.{IsRoot};
ghost use Rattle.circuit_meaning.specs.Cells.{cell_at};
ghost use Rattle.journal_meaning.specs.Batches.{window_of};
ghost use Rattle.plan_machine.specs.declared.strand.Next.TheVariants.{Ask, Fill, Drop, Done};
ghost use Rattle.journal_meaning.specs.Lawful.{IsLawful, IsQueryOf};
ghost use Rattle.plan_machine.specs.Strands as strands;
ghost use Rattle.plan_machine.specs.Strands.{next, started_strand};
ghost use Rattle.demand_points.specs.Demands.{HasHeardBases, IsAskedCell, IsAsking, IsFilling, IsKnownStrand, IsRootCell, TakesStep, itself};
ghost use Rattle.valid_intervals.specs.declared.Point.{Point};

use crate::batch_design::BatchDesign;
use crate::names::BatchName;
use crate::parts::Parts;
use crate::stack::Stack;
use claim_waiters::Waiter;
use journal_meaning::Query;
use plan_machine::Next;
use std::alloc::Global;
use std::marker::{Model, PhantomData};
use texts::OutOfMemory;
use valid_intervals::{Cell, Point};

/// The query, window and budget that a strand was started with.
#[derive(Clone, Copy, Debug, PartialEq, Eq)]
pub struct Task {
    pub query: Query,
    pub from: u32,
    pub to: u32,
    pub budget: u32,
}

/// One suspended demand of the batch that B names.
#[derive(Drop)]
pub struct Strand<B: BatchName> {
    parts: Parts,
    /// True only where every base answer before its next step was heard.
    settled: bool,
    of: PhantomData<B>,
}

impl<B: BatchName> Model for Strand<B> {
    ghost use Rattle.demand_points.specs.Demands.{Demand};
    ghost use Rattle.demand_points.specs.inner.Demands.{demand_of, IsKept};

    ghost Value = { Demand };

    ghost view = { λ s. demand_of B.batch.circuit s.parts };

    ghost invariant = { λ s. IsKept B.batch s.parts s.settled };
}

impl<B: BatchName> Strand<B> {
    /// A strand with this number, for the window of the query from `from` on and below `to`. It may claim up to `budget` points,
    /// of which `charged` are counted already.
    pub fn start(
        alloc: Global,
        number: u32,
        query: Query,
        from: u32,
        to: u32,
        budget: u32,
        charged: u32,
    ) -> Strand<B>
        requires lawful { IsLawful B.batch }
        requires known { IsQueryOf B.batch query }
        requires root { from < to → IsRoot B.batch.circuit (window_of query) from }
        requires window { to ≤ query.to }
        requires charge { charged ≤ budget }
        requires budget { budget ≤ query.budget }
        ensures number { result.number ≡ number }
        ensures from { result.from ≡ from }
        ensures to { result.to ≡ to }
        ensures strand { result.strand ≡ started_strand B.batch.circuit
            (record {
              query = query;
              start = from;
              stop = to;
              budget = budget;
              charged =
                  charged;
            }) }
        ensures last { result.last ≡ None }
    {
        Strand {
            parts: Parts {
                number,
                query,
                from,
                to,
                budget,
                root: from,
                stack: Stack::new(alloc),
                charged,
                filled: 0,
                spent: false,
                last: None,
            },
            settled: false,
            of: PhantomData,
        }
    }

    /// The law of every strand: what it asks for and holds is that of a query of its batch, within its budget. A shard needs it before it
    /// writes an entry for the strand, and whoever answers a query once the strand has ended.
    pub fn facts(&self)
        ensures { IsKnownStrand B.batch self.now }
    {
        // A proof knows the invariant of a value whose field the body reads.
        let _ = &self.parts;
    }

    /// The query, window and budget that it was started with.
    pub fn task(&self) -> Task
        ensures { result ≡ record {
          query = self.now.strand.query;
          from = self.now.from;
          to =
              self.now.to;
          budget = self.now.strand.budget;
        } }
    {
        Task {
            query: self.parts.query,
            from: self.parts.from,
            to: self.parts.to,
            budget: self.parts.budget,
        }
    }

    /// Its number among the strands of the batch.
    pub fn number(&self) -> u32
        ensures { result ≡ self.now.number }
    {
        self.parts.number
    }

    /// The query that it serves.
    pub fn query(&self) -> Query
        ensures { result ≡ self.now.strand.query }
    {
        self.parts.query
    }

    /// How many claims count towards its budget.
    pub fn charge(&self) -> u32
        ensures charged { result ≡ self.now.strand.charged }
        ensures within { result ≤ self.now.strand.budget }
    {
        self.parts.charged
    }

    /// How many points it holds claimed.
    pub fn claims(&self) -> usize
        ensures { result ≡ length self.now.strand.stack }
    {
        self.parts.stack.len()
    }

    /// How many points it has filled.
    pub fn fills(&self) -> u32
        ensures { result ≡ self.now.strand.filled }
    {
        self.parts.filled
    }

    /// Whether it was refused a point.
    pub fn is_spent(&self) -> bool
        ensures { result ≡ self.now.strand.spent }
    {
        self.parts.spent
    }

    /// The cell of the last root that it heard.
    pub fn last(&self) -> Option<Cell>
        ensures last { result ≡ self.now.last }
        ensures right { IfSome result (IsRootCell B.batch.circuit self.now) }
    {
        self.parts.last
    }

    /// Hears base answers until a step is needed, and answers that step. Called again, it changes nothing.
    pub fn next_step(&mut self, design: BatchDesign<'_, B>) -> Next
        ensures next { result ≡ next self.new.strand }
        ensures steps { TakesStep itself self.old self.new }
        ensures heard { HasHeardBases B.batch.circuit self.new }
        ensures again { HasHeardBases B.batch.circuit self.old → self.new ≡ self.old }
    {
        let design = design.design();
        self.parts.settle_unless(self.settled, design);
        self.settled = true;
        self.parts.next(design)
    }

    /// Hears the cell of the point that it asks for.
    pub fn hear(&mut self, design: BatchDesign<'_, B>, cell: Cell)
        requires answer { IsAskedCell B.batch.circuit self.old.strand cell }
        ensures { TakesStep strands.after_answer self.old self.new }
    {
        let design = design.design();
        self.parts.settle_unless(self.settled, design);
        self.settled = false;
        self.parts.hear(design, &cell);
    }

    /// Claims the point that it asks for, and is charged for it. Where memory runs out, it stays as it was.
    pub fn take_claim(&mut self, design: BatchDesign<'_, B>, p: Point) -> Result<(), OutOfMemory>
        requires asks { next self.old.strand ≡ Ask p }
        requires room { self.old.strand.charged < self.old.strand.budget }
        ensures ok { OnOk result (TakesStep (λ s. strands.after_claim B.batch.circuit s p) self.old
            self.new) }
        ensures err { OnErr result (self.new ≡ self.old) }
    {
        self.parts.claim(self.settled, design.design(), p)?;
        self.settled = false;
        Ok(())
    }

    /// It is refused the point that it asks for: its budget is spent.
    pub fn give_up(&mut self)
        requires { IsAsking self.old.strand }
        ensures { TakesStep strands.given_up self.old self.new }
    {
        self.settled = false;
        self.parts.spent = true;
    }

    /// The cell of the point on top of its stack.
    pub fn top_cell(&self, design: BatchDesign<'_, B>) -> Cell
        requires fills { IsFilling self.now.strand }
        ensures { (p : Point) → next self.now.strand ≡ Fill p → result ≡ cell_at B.batch.circuit p }
    {
        self.parts.top_cell(design.design())
    }

    /// Ends the claim of the point on top of its stack, whose cell is known; what lies under it hears the cell.
    pub fn finish_with(&mut self, design: BatchDesign<'_, B>, cell: &Cell)
        requires fills { IsFilling self.old.strand }
        requires cell { (p : Point) → next self.old.strand ≡ Fill p
            → cell.now ≡ cell_at B.batch.circuit p }
        ensures { TakesStep strands.after_fill self.old self.new }
    {
        self.settled = false;
        self.parts.finish(design.design(), cell);
    }

    /// Ends the claim of the point on top of its stack without a cell, and answers the point.
    pub fn drop_top(&mut self) -> Point
        requires { (p : Point) × (next self.old.strand ≡ Drop p) }
        ensures point { next self.old.strand ≡ Drop result }
        ensures steps { TakesStep strands.after_drop self.old self.new }
    {
        self.settled = false;
        match self.parts.stack.pop() {
            Some(walk) => walk.point,
            None => unreachable!(),
        }
    }
}

/// Strands wait for a point in a vector.
impl<B: BatchName> Waiter for Strand<B> {
    type Room = Vec<Strand<B>>;

    ghost items = { λ room. room.items };

    fn none(alloc: Global) -> Vec<Strand<B>> {
        Vec::new(alloc)
    }

    fn wait(room: &mut Vec<Strand<B>>, waiter: Strand<B>) -> Result<(), (Strand<B>, OutOfMemory)> {
        match room.push(waiter) {
            Ok(()) => Ok(()),
            Err(refused) => Err((refused.value, OutOfMemory)),
        }
    }
}
