//! A stack of claimed points.

ghost use Rattle.std.specs.Prelude.{◌≡◌, [], ◌∷◌, length, OnOk, OnErr, MatchOption};
ghost use Rattle.design.specs.PinWalks.{IsPinWalk, LooksOn};
ghost use Rattle.demand_points.specs.inner.Bases.{IsHearing, HearsAllBases};
ghost use Rattle.demand_points.specs.inner.Stacks.{IsTop, OnTop, ChangesTop, with_top};

use crate::bases::hear_bases;
use design::{Design, PinWalk};
use std::alloc::{AllocError, Global};
use std::marker::Model;
use valid_intervals::Cell;

/// A stack of claimed points, seen as the list from the top down.
#[derive(Drop)]
pub struct Stack {
    items: Vec<PinWalk>,
}

impl Model for Stack {
    ghost use Rattle.std.specs.Prelude.{List, reverse};
    ghost use Rattle.design.specs.declared.pin_walk.PinWalk.{PinWalk};

    ghost Value = { List PinWalk };

    ghost view = { λ s. reverse s.items.items };
}

impl Stack {
    pub fn new(alloc: Global) -> Stack
        ensures { result ≡ [] }
    {
        Stack {
            items: Vec::new(alloc),
        }
    }

    pub fn len(&self) -> usize
        ensures { result ≡ length self.now }
    {
        self.items.len()
    }

    pub fn top(&self) -> Option<&PinWalk>
        ensures { MatchOption result (self.now ≡ []) (λ w. IsTop self.now w.now) }
    {
        self.items.last()
    }

    pub fn push(&mut self, walk: PinWalk) -> Result<(), AllocError>
        ensures ok { OnOk result (self.new ≡ walk ∷ self.old) }
        ensures err { OnErr result (self.new ≡ self.old) }
    {
        self.items.push(walk)?;
        Ok(())
    }

    pub fn pop(&mut self) -> Option<PinWalk>
        ensures { MatchOption result ((self.old ≡ []) × (self.new ≡ []))
            (λ f. self.old ≡ f ∷ self.new) }
    {
        self.items.pop()
    }

    /// The top hears base answers, up to the next pin that has none.
    pub fn hear_bases(&mut self, design: &Design)
        requires { OnTop (IsPinWalk design.now.circuit) self.old }
        ensures { ChangesTop (HearsAllBases design.now.circuit) self.old self.new }
    {
        if let Some(top) = self.items.last_mut() {
            hear_bases(design, top);
        }
    }

    /// The top looks at its next pin, whose cell is heard.
    pub fn see(&mut self, design: &Design, cell: Cell)
        requires { OnTop (IsHearing design.now.circuit cell) self.old }
        ensures { ChangesTop (LooksOn design.now.circuit) self.old self.new }
    {
        if let Some(top) = self.items.last_mut() {
            top.see(design, Some(cell));
        }
    }

    /// Changes the top, if there is one.
    pub fn set_top(&mut self, walk: PinWalk)
        ensures { self.new ≡ with_top walk self.old }
    {
        if let Some(top) = self.items.last_mut() {
            *top = walk;
        }
    }
}
