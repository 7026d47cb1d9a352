//! The cells that are still to be lines, in order.

ghost use Rattle.std.specs.Prelude.{◌≡◌, None, IfSome, IfNone, OnOk};
ghost use Rattle.std.specs.BTreeMap.{get};
ghost use Rattle.query_answers.specs.declared.explanations.waiting.LinePlace.{LinePlace as LinePlaceRecord};
ghost use Rattle.query_answers.specs.explanations.inner.Waiting.{place_cmp, line_of, point_of, place_of, Adds, TakesLast};

use std::alloc::Global;
use std::collections::BTreeMap;
use texts::OutOfMemory;
use valid_intervals::{Cell, Point, SignalCell};

/// Where a cell comes in order: by its first time, and then by its signal.
#[derive(Clone, Copy, Debug, PartialEq, Eq, PartialOrd, Ord)]
pub struct LinePlace {
    pub start: u32,
    pub signal: u32,
}

/// A cell of a signal, and the time at which it was asked for.
#[derive(Clone, Copy, Debug)]
pub struct Asked {
    pub signal: u32,
    pub time: u32,
    pub cell: Cell,
}

impl Asked {
    /// The point that was asked for.
    pub fn point(&self) -> Point
        ensures { result ≡ point_of self.now }
    {
        Point {
            signal: self.signal,
            time: self.time,
        }
    }

    /// The line that it will be.
    pub fn line(&self) -> SignalCell
        ensures { result ≡ line_of self.now }
    {
        SignalCell {
            signal: self.signal,
            cell: self.cell,
        }
    }

    /// Where it comes in order.
    fn place(&self) -> LinePlace
        ensures { result ≡ place_of (line_of self.now) }
    {
        LinePlace {
            start: self.cell.span.start(),
            signal: self.signal,
        }
    }
}

/// Cells by their places. For n cells one more takes O(log n) steps, and so does the last.
#[derive(Drop)]
pub struct Waiting {
    cells: BTreeMap<LinePlace, Asked>,
}

impl Waiting {
    /// None waits.
    pub fn new(alloc: Global) -> Waiting
        ensures { (k : LinePlaceRecord) → get place_cmp result.cells k ≡ None }
    {
        Waiting {
            cells: BTreeMap::new(alloc),
        }
    }

    /// Adds a cell, unless one stands in its place.
    pub fn add(&mut self, asked: &Asked) -> Result<(), OutOfMemory>
        ensures { OnOk result (Adds (get place_cmp self.old.cells) asked.now
            (get place_cmp self.new.cells)) }
    {
        let place = asked.place();
        if self.cells.contains_key(&place) {
            return Ok(());
        }
        self.cells.insert(place, *asked)?;
        Ok(())
    }

    /// Takes the last cell.
    pub fn take_last(&mut self) -> Option<Asked>
        ensures some { IfSome result (λ asked. TakesLast (get place_cmp self.old.cells) asked
            (get place_cmp self.new.cells)) }
        ensures none { IfNone result ((k : LinePlaceRecord) → get place_cmp self.old.cells k ≡ None) }
        ensures stays { IfNone result ((k : LinePlaceRecord) → get place_cmp self.new.cells k ≡ None) }
    {
        let (_, asked) = self.cells.pop_last()?;
        Some(asked)
    }
}
