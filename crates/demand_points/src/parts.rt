//! What a strand is made of, apart from the batch that it belongs to.

ghost use Rattle.std.specs.Prelude.{◌≡◌, ◌+◌, ◌<◌, ◌^◌, [], true, OnOk, OnErr, MatchOption};
ghost use Rattle.circuit_meaning.specs.Cells.{cell_at};
ghost use Rattle.plan_machine.specs.Strands.{next, after_answer, after_claim, after_fill};
ghost use Rattle.plan_machine.specs.declared.strand.Next.TheVariants.{Ask, Fill};
ghost use Rattle.valid_intervals.specs.declared.Point.{Point};
ghost use Rattle.demand_points.specs.inner.Demands.{strand_of, IsRunning, IsReadyAt, IsRootReady, IsRootKnown, IsUndone, StaysAtRoot, TakesStepTo};
ghost use Rattle.demand_points.specs.Demands.{itself, IsAskedCell, IsFilling};

use crate::bases::hear_bases;
use crate::stack::Stack;
use design::{Design, PinWalk};
use journal_meaning::Query;
use plan_machine::Next;
use std::alloc::AllocError;
use valid_intervals::{Cell, Point};

/// What a strand is made of. The next root of its window is at the time `root`; `last` is the cell of the root before it.
#[derive(Drop)]
pub struct Parts {
    pub number: u32,
    pub query: Query,
    pub from: u32,
    pub to: u32,
    pub budget: u32,
    pub root: u32,
    pub stack: Stack,
    pub charged: u32,
    pub filled: u32,
    pub spent: bool,
    pub last: Option<Cell>,
}

impl Parts {
    /// The point of the next root.
    fn root_point(&self) -> Point
        ensures { result ≡ record { signal = self.now.query.signal; time = self.now.root } }
    {
        Point {
            signal: self.query.signal,
            time: self.root,
        }
    }

    /// The base answer at the next root, where the window has one and it has one.
    fn known_root(&self, design: &Design) -> Option<Cell>
        requires { IsRunning design.now.circuit self.now }
        ensures { MatchOption result (IsRootReady design.now.circuit self.now)
            (IsRootKnown design.now.circuit self.now) }
    {
        if self.root >= self.to {
            return None;
        }
        design.base(self.query.signal, self.root)
    }

    /// Moves on over roots that have base answers.
    fn skip_roots(&mut self, design: &Design)
        requires running { IsRunning design.now.circuit self.old }
        requires empty { self.old.stack ≡ [] }
        ensures steps { TakesStepTo design.now.circuit itself self.old self.new }
        ensures empty { self.new.stack ≡ [] }
        ensures ready { IsRootReady design.now.circuit self.new }
        ensures again { IsRootReady design.now.circuit self.old → self.new ≡ self.old }
    {
        design.facts();
        'roots: loop {
            match self.known_root(design) {
                None => return,
                Some(cell) => {
                    self.root = cell.span.end();
                    self.last = Some(cell);
                }
            }
        }
    }

    /// Hears base answers, until a point has to be asked for or the point on top is whole.
    pub fn settle(&mut self, design: &Design)
        requires { IsRunning design.now.circuit self.old }
        ensures steps { TakesStepTo design.now.circuit itself self.old self.new }
        ensures ready { IsReadyAt design.now.circuit self.new }
        ensures undone { IsUndone self.old self.new }
        ensures again { StaysAtRoot design.now.circuit self.old self.new }
    {
        match self.stack.top() {
            Some(_) => self.stack.hear_bases(design),
            None => self.skip_roots(design),
        }
    }

    /// Hears base answers until a step is needed, unless none is left to be heard.
    pub fn settle_unless(&mut self, settled: bool, design: &Design)
        requires running { IsRunning design.now.circuit self.old }
        requires settled { settled ≡ true → IsReadyAt design.now.circuit self.old }
        ensures steps { TakesStepTo design.now.circuit itself self.old self.new }
        ensures ready { IsReadyAt design.now.circuit self.new }
        ensures again { StaysAtRoot design.now.circuit self.old self.new }
    {
        if !settled {
            self.settle(design);
        }
    }

    /// The next step, once base answers are heard.
    pub fn next(&self, design: &Design) -> Next
        requires running { IsRunning design.now.circuit self.now }
        requires ready { IsReadyAt design.now.circuit self.now }
        ensures { result ≡ next (strand_of design.now.circuit self.now) }
    {
        design.facts();
        match self.stack.top() {
            None => {
                if self.spent {
                    Next::Done
                } else if self.root < self.to {
                    Next::Ask(self.root_point())
                } else {
                    Next::Done
                }
            }
            Some(walk) => {
                if self.spent {
                    Next::Drop(walk.point)
                } else if walk.is_done() {
                    Next::Fill(walk.point)
                } else {
                    match walk.next_source() {
                        Some(p) => Next::Ask(p),
                        None => unreachable!(),
                    }
                }
            }
        }
    }

    /// Hears the cell of the point that it asks for.
    pub fn hear(&mut self, design: &Design, cell: &Cell)
        requires running { IsRunning design.now.circuit self.old }
        requires ready { IsReadyAt design.now.circuit self.old }
        requires answer { IsAskedCell design.now.circuit (strand_of design.now.circuit self.old)
            cell.now }
        ensures { TakesStepTo design.now.circuit after_answer self.old self.new }
    {
        design.facts();
        match self.stack.top() {
            Some(_) => self.stack.see(design, *cell),
            None => {
                self.root = cell.span.end();
                self.last = Some(*cell);
            }
        }
    }

    /// Claims the point that it asks for. Base answers are heard.
    fn push(&mut self, design: &Design, p: Point) -> Result<(), AllocError>
        requires running { IsRunning design.now.circuit self.old }
        requires ready { IsReadyAt design.now.circuit self.old }
        requires asks { next (strand_of design.now.circuit self.old) ≡ Ask p }
        requires room { self.old.charged < self.old.budget }
        ensures ok { OnOk result (TakesStepTo design.now.circuit
            (λ s. after_claim design.now.circuit s p) self.old self.new) }
        ensures err { OnErr result (self.new ≡ self.old) }
    {
        design.facts();
        self.stack.push(PinWalk::new(design, p))?;
        self.charged += 1;
        Ok(())
    }

    /// Hears base answers and claims the point that it asks for, or stays as it was.
    fn settle_and_push(&mut self, design: &Design, p: Point) -> Result<(), AllocError>
        requires running { IsRunning design.now.circuit self.old }
        requires asks { next (strand_of design.now.circuit self.old) ≡ Ask p }
        requires room { self.old.charged < self.old.budget }
        ensures ok { OnOk result (TakesStepTo design.now.circuit
            (λ s. after_claim design.now.circuit s p) self.old self.new) }
        ensures err { OnErr result (self.new ≡ self.old) }
    {
        let root = self.root;
        let last = self.last;
        let top = self.stack.top().copied();
        self.settle(design);
        match self.push(design, p) {
            Ok(()) => Ok(()),
            Err(error) => {
                self.root = root;
                self.last = last;
                match top {
                    Some(walk) => {
                        self.stack.set_top(walk);
                        Err(error)
                    }
                    None => Err(error),
                }
            }
        }
    }

    /// Claims the point that it asks for, or stays as it was.
    pub fn claim(&mut self, settled: bool, design: &Design, p: Point) -> Result<(), AllocError>
        requires running { IsRunning design.now.circuit self.old }
        requires settled { settled ≡ true → IsReadyAt design.now.circuit self.old }
        requires asks { next (strand_of design.now.circuit self.old) ≡ Ask p }
        requires room { self.old.charged < self.old.budget }
        ensures ok { OnOk result (TakesStepTo design.now.circuit
            (λ s. after_claim design.now.circuit s p) self.old self.new) }
        ensures err { OnErr result (self.new ≡ self.old) }
    {
        if settled {
            self.push(design, p)
        } else {
            self.settle_and_push(design, p)
        }
    }

    /// The cell of the point on top, whose children are all heard.
    pub fn top_cell(&self, design: &Design) -> Cell
        requires running { IsRunning design.now.circuit self.now }
        requires fills { IsFilling (strand_of design.now.circuit self.now) }
        ensures { (p : Point) → next (strand_of design.now.circuit self.now) ≡ Fill p
            → result ≡ cell_at design.now.circuit p }
    {
        match self.stack.top() {
            Some(walk) => {
                if walk.is_done() {
                    walk.cell(design)
                } else {
                    let mut heard = *walk;
                    hear_bases(design, &mut heard);
                    heard.cell(design)
                }
            }
            None => unreachable!(),
        }
    }

    /// Ends the claim of the point on top with its cell, which what lies under it hears.
    pub fn finish(&mut self, design: &Design, cell: &Cell)
        requires running { IsRunning design.now.circuit self.old }
        requires fills { IsFilling (strand_of design.now.circuit self.old) }
        requires room { self.old.filled < self.old.budget }
        requires cell { (p : Point) → next (strand_of design.now.circuit self.old) ≡ Fill p
            → cell.now ≡ cell_at design.now.circuit p }
        ensures { TakesStepTo design.now.circuit after_fill self.old self.new }
    {
        design.facts();
        let _ = self.stack.pop();
        self.filled += 1;
        self.hear(design, cell);
    }
}
