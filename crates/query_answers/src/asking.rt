//! Cells are asked for a query, one point after another.
//!
//! [`Asking`] owns what every room needs for it: the design, the shards of the memo, the query at hand, and what it was charged. By its
//! type the batch is lawful, the design has its circuit, no point is claimed in the memo, and the charge is what the query filled in the
//! batch so far, at most its budget. [`Asking::turn_to`] takes the next query. [`Asking::cell`] answers the cell of a point by `reach` of
//! `plan_core::asked`. Where a strand has to ask for it, that is one for this point alone, with the query's number and budget.
//! [`Asking::look`] asks so for what a pin reads, and a walk that begins with [`Asking::pins_of`] asks for all that its point comes from.
//!
//! A call that is refused memory drops the shards. From then on there is none, and each call that needs them is an `Err`.
//!
//! ```
//! let mut asking = Asking::new(design, memo);
//! asking.turn_to(query, 0)?;
//! match asking.cell(p)? {
//!     Some(cell) => println!(rt; "{}", cell.value)?,
//!     None => println!(rt; "more than {} evaluations", query.budget)?,
//! }
//! let shards = asking.into_shards()?;
//! ```

ghost use Rattle.std.specs.Prelude.{◌≡◌, All, Contains, IfOk, IfSome, OnOk, OnSome};
ghost use Rattle.circuit_meaning.specs.Cells.{cell_at};
ghost use Rattle.circuit_meaning.specs.Need.{IsEvaluable};
ghost use Rattle.design.specs.PinWalks.{IsPoint, IsPinWalk, IsLooking, LooksOn, cell_there, next_point};
ghost use Rattle.journal_meaning.specs.Batches.{IsNeededBy};
ghost use Rattle.journal_meaning.specs.Lawful.{IsLawful};
ghost use Rattle.journal_meaning.specs.Listed.{IsRightEntry};
ghost use Rattle.journal_meaning.specs.Pieces.{IsStart};
ghost use Rattle.plan_machine.specs.Settle.{charge_of};
ghost use Rattle.plan_core.specs.Parts.{shards_in};
ghost use Rattle.plan_core.specs.asked.Asked.{HasAsked};
ghost use Rattle.plan_core.specs.asked.Memos.{AreFreeShards, entries_of, is_missing};
ghost use Rattle.plan_core.specs.asked.Sources.{IsSourceCovered};
ghost use Rattle.query_answers.specs.asking.inner.AskedMemos.{GoesOnAsking, heard_at, start_for};

use demand_points::{BatchDesign, BatchName};
use design::{Design, PinWalk};
use journal_meaning::Query;
use memo_shards::Shard;
use plan_core::asked::{Memo, reach};
use std::marker::Model;
use texts::OutOfMemory;
use valid_intervals::{Cell, Point};

/// The walk once it has looked at one pin more, and what the pin reads: a point and its cell; none where that is before time 0.
#[derive(Clone, Copy)]
pub struct Looked {
    pub walk: PinWalk,
    pub heard: Option<(Point, Cell)>,
}

/// A query for which cells are asked: the design, the memo, and what the query was charged. There is no memo once memory ran out.
#[derive(Drop)]
pub struct Asking<'d, B: BatchName> {
    design: BatchDesign<'d, B>,
    memo: Option<Memo<B>>,
    query: Query,
    charge: u32,
}

impl<'d, B: BatchName> Model for Asking<'d, B> {
    ghost use Rattle.query_answers.specs.asking.inner.AskedMemos.{AskedMemo, IsAsking, shards_left};

    ghost Value = { AskedMemo };

    ghost view = { λ a. record { memo = shards_left a.memo; query = a.query } };

    ghost invariant = { λ a. IsAsking B.batch B.opening a.memo a.query a.charge };
}

impl<'d, B: BatchName> Asking<'d, B> {
    /// A memo that is asked for no query yet: it begins with one of budget 0.
    pub fn new(design: BatchDesign<'d, B>, memo: Memo<B>) -> Asking<'d, B>
        requires lawful { IsLawful B.batch }
        requires free { AreFreeShards B.batch B.opening memo }
        ensures { result.memo ≡ memo }
    {
        Asking {
            design,
            memo: Some(memo),
            query: Query {
                number: 0,
                signal: 0,
                from: 0,
                to: 0,
                budget: 0,
            },
            charge: 0,
        }
    }

    /// It does nothing, and hands out that the batch is lawful, and that each entry of the memo is right.
    pub fn facts(&self)
        ensures lawful { IsLawful B.batch }
        ensures entries { All (IsRightEntry B.batch.circuit) (entries_of self.now.memo) }
    {
        let _charge = self.charge;
    }

    /// The design.
    pub fn design(&self) -> &'d Design
        ensures { result.now.circuit ≡ B.batch.circuit }
    {
        self.design.design()
    }

    /// The query that is asked for.
    pub fn query(&self) -> Query
        ensures { result ≡ self.now.query }
    {
        self.query
    }

    /// What the query was charged.
    pub fn charge(&self) -> u32
        ensures { result ≡ charge_of (entries_of self.now.memo) self.now.query }
    {
        self.charge
    }

    /// The shards, in order. An `Err` tells that they were dropped before, here and in `into_shards`.
    pub fn shards(&self) -> Result<&[Shard<B>], OutOfMemory>
        ensures shards { IfOk result (λ shards. shards.now ≡ self.now.memo) }
        ensures free { OnOk result (AreFreeShards B.batch B.opening self.now.memo) }
    {
        match &self.memo {
            Some(memo) => Ok(memo.shards()),
            None => Err(OutOfMemory),
        }
    }

    /// The shards again.
    pub fn into_shards(self) -> Result<Vec<Shard<B>>, OutOfMemory>
        ensures shards { IfOk result (λ shards. shards.items ≡ self.entry.memo) }
        ensures free { IfOk result (λ shards. AreFreeShards B.batch B.opening shards.items) }
    {
        let Asking {
            design: _,
            memo,
            query: _,
            charge: _,
        } = self;
        match memo {
            Some(memo) => Ok(memo.into_shards()),
            None => Err(OutOfMemory),
        }
    }

    /// Asks for this query from now on, which was charged so much in the batch. An `Err` tells that the shards were dropped before.
    pub fn turn_to(&mut self, query: Query, charge: u32) -> Result<(), OutOfMemory>
        requires charge { charge ≡ charge_of (entries_of self.old.memo) query }
        ensures turned { self.new ≡ record { memo = self.old.memo; query = query } }
        ensures free { OnOk result (AreFreeShards B.batch B.opening self.old.memo) }
    {
        self.query = query;
        self.charge = charge;
        match &self.memo {
            Some(_) => Ok(()),
            None => Err(OutOfMemory),
        }
    }

    /// A walk over the pins of a point, which has looked at none.
    pub fn pins_of(&self, p: Point) -> PinWalk
        requires point { IsPoint B.batch.circuit p }
        requires evaluable { IsEvaluable B.batch.circuit p.signal p.time }
        ensures walk { IsPinWalk B.batch.circuit result }
        ensures point { result.point ≡ p }
        ensures looked { result.looked ≡ 0 }
    {
        PinWalk::new(self.design.design(), p)
    }

    /// The walk once it has looked at the next pin, whose cell is heard; before time 0 there is none.
    fn see(&self, walk: &PinWalk, heard: Option<Cell>) -> PinWalk
        requires walk { IsPinWalk B.batch.circuit walk.now }
        requires looking { IsLooking B.batch.circuit walk.now }
        requires heard { heard ≡ cell_there B.batch.circuit (next_point B.batch.circuit walk.now) }
        ensures { LooksOn B.batch.circuit walk.now result }
    {
        let mut next = *walk;
        next.see(self.design.design(), heard);
        next
    }

    /// The cell of a point, asked for where no entry says it; none if the query is refused. An `Err` drops the shards.
    pub fn cell(&mut self, p: Point) -> Result<Option<Cell>, OutOfMemory>
        requires point { IsPoint B.batch.circuit p }
        requires start { IsEvaluable B.batch.circuit p.signal p.time
            → IsStart B.batch (start_for self.old p) }
        ensures query { self.new.query ≡ self.old.query }
        ensures cell { IfOk result (λ r. IfSome r (λ cell. cell ≡ cell_at B.batch.circuit p)) }
        ensures asked { IfOk result (λ r. HasAsked B.batch B.opening (start_for self.old p)
            (shards_in self.old.memo) (shards_in self.new.memo) (is_missing r)) }
    {
        let Some(memo) = &mut self.memo else {
            return Err(OutOfMemory);
        };
        let instant = Query {
            number: self.query.number,
            signal: p.signal,
            from: p.time,
            to: p.time + 1,
            budget: self.query.budget,
        };
        match reach(memo, self.design, instant, p.time, &mut self.charge) {
            Ok(found) => Ok(found),
            Err(OutOfMemory) => {
                self.memo = None;
                self.charge = 0;
                Err(OutOfMemory)
            }
        }
    }

    /// Looks at the next pin of a point that the query needs, and asks for the cell that the pin reads; none if the query is refused. An
    /// `Err` drops the shards.
    pub fn look(&mut self, walk: &PinWalk) -> Result<Option<Looked>, OutOfMemory>
        requires known { Contains B.batch.queries self.old.query }
        requires walk { IsPinWalk B.batch.circuit walk.now }
        requires looking { IsLooking B.batch.circuit walk.now }
        requires needed { IsNeededBy B.batch self.old.query walk.now.point }
        ensures walk { IfOk result (λ r. IfSome r
            (λ looked. LooksOn B.batch.circuit walk.now looked.walk)) }
        ensures heard { IfOk result (λ r. IfSome r (λ looked. looked.heard
            ≡ heard_at B.batch.circuit (next_point B.batch.circuit walk.now))) }
        ensures covered { IfOk result (λ r. OnSome r (IsSourceCovered B.batch.circuit
            (entries_of self.new.memo) (next_point B.batch.circuit walk.now))) }
        ensures asks { IfOk result (λ r. GoesOnAsking B.batch B.opening self.old self.new
            (is_missing r)) }
    {
        self.facts();
        let Some(p) = walk.next_source() else {
            let next = self.see(walk, None);
            return Ok(Some(Looked {
                walk: next,
                heard: None,
            }));
        };
        let Some(cell) = self.cell(p)? else {
            return Ok(None);
        };
        let heard = (p, cell);
        let next = self.see(walk, Some(heard.1));
        Ok(Some(Looked {
            walk: next,
            heard: Some(heard),
        }))
    }
}
