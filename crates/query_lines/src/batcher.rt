//! Items gathered into batches.

ghost use Rattle.std.specs.Prelude.{◌≡◌, ◌<◌, ◌^◌, ◌++◌, [], ◌∷◌, false, length, OnOk, OnErr, IfOk, IsNone, ◌↔◌, option_to_list};
ghost use Rattle.query_lines.specs.Units as units;
ghost use Rattle.query_lines.specs.Units.{closed_unit, given_by, left_by, with_item};

use crate::line::{Line, What, Window};
use crate::unit::{Item, ItemList, Question, Unit, UnitList};
use std::alloc::Global;
use std::marker::Model;
use std::mem;
use texts::OutOfMemory;

const MOST_ITEMS: usize = 64;

const MOST_BUDGETS: u64 = 1_000_000;

const MOST_LENGTHS: u64 = 4_000_000;

fn budget_weight(what: &What) -> u64
    ensures weight { result ≡ units.budget_weight what.now }
    ensures bound { result < 2 ^ 32 }
{
    match what {
        What::Window(window, _) => window.budget as u64,
        What::Bad => 0,
    }
}

fn window_length(horizon: u32, window: &Window) -> u64
    ensures length { result ≡ units.window_length horizon window.now }
    ensures bound { result < 2 ^ 32 }
{
    if window.from < window.to && window.to as u64 <= horizon as u64 + 1 {
        (window.to - window.from) as u64
    } else {
        0
    }
}

fn length_weight(horizon: u32, what: &What) -> u64
    ensures weight { result ≡ units.length_weight horizon what.now }
    ensures bound { result < 2 ^ 32 }
{
    match what {
        What::Window(window, _) => window_length(horizon, window),
        What::Bad => 0,
    }
}

/// Gathers the items of a script into batches.
///
/// A batch has at most 64 items, budgets that add up to at most 1,000,000 and window lengths that add up to at most 4,000,000.
/// Only a window that is not empty and ends no later than the horizon counts. A batch closes before an item that would take one
/// of the sums over its limit, and after its 64th item. A single item may be over a limit, but one that `read_line` gave never
/// is.
#[derive(Drop)]
pub struct Batcher {
    alloc: Global,
    horizon: u32,
    pending: Vec<Item>,
    budgets: u64,
    lengths: u64,
}

impl Model for Batcher {
    ghost use Rattle.std.specs.Prelude.{◌≡◌, ◌<◌, ◌^◌, length};
    ghost use Rattle.query_lines.specs.Units as units;
    ghost use Rattle.query_lines.specs.Units.{Pending};

    ghost Value = { Pending };

    ghost view = { λ b. record { horizon = b.horizon; items = b.pending.items } };

    ghost invariant = { λ b. (b.budgets ≡ units.budgets b.pending.items)
        × (b.lengths ≡ units.lengths b.horizon b.pending.items)
        × (length b.pending.items < 64) × (b.budgets < 2 ^ 32) × (b.lengths < 2 ^ 33) };
}

impl Batcher {
    /// A batcher without pending items, for a simulation up to this horizon.
    pub fn new(alloc: Global, horizon: u32) -> Batcher
        ensures { result ≡ record { horizon = horizon; items = [] } }
    {
        Batcher {
            alloc,
            horizon,
            pending: Vec::new(alloc),
            budgets: 0,
            lengths: 0,
        }
    }

    /// Takes the line of this number, and gives the units that it completes, at most two.
    pub fn take(&mut self, number: u32, line: Line) -> Result<UnitList, OutOfMemory>
        ensures units { IfOk result (λ units. units ≡ given_by self.old number line) }
        ensures pending { OnOk result (self.new ≡ left_by self.old number line) }
        ensures err { OnErr result (self.new ≡ self.old) }
    {
        match line {
            Line::Blank => Ok(UnitList::from_vec(Vec::new(self.alloc))),
            Line::Ask(what) => self.add(Item { line: number, what }),
            Line::Bad => self.add(Item {
                line: number,
                what: What::Bad,
            }),
            Line::Go => self.close(None),
            Line::Trim(cells) => self.close(Some(Unit::Trim(cells))),
            Line::Stats => self.close(Some(Unit::Stats)),
            Line::Question(window, asks) => self.close(Some(Unit::Question(Question {
                line: number,
                window,
                asks,
            }))),
            Line::Vcd(file) => self.close(Some(Unit::Vcd(file))),
        }
    }

    /// Closes the pending batch; `None` exactly when no item is pending.
    pub fn end(&mut self) -> Option<Unit>
        ensures unit { option_to_list result ≡ closed_unit self.old.items }
        ensures pending { self.new ≡ record self.old { items = [] } }
        ensures none { IsNone result ↔ (self.old.items ≡ []) }
    {
        if self.pending.is_empty() {
            return None;
        }
        let items = mem::replace(&mut self.pending, Vec::new(self.alloc));
        self.budgets = 0;
        self.lengths = 0;
        Some(Unit::Batch(ItemList::from_vec(items)))
    }

    // Closes the pending batch, and gives this unit after it.
    fn close(&mut self, last: Option<Unit>) -> Result<UnitList, OutOfMemory>
        ensures units { IfOk result (λ units. units ≡ closed_unit self.old.items ++ option_to_list
            last) }
        ensures pending { OnOk result (self.new ≡ record self.old { items = [] }) }
        ensures err { OnErr result (self.new ≡ self.old) }
    {
        let mut units = Vec::with_capacity(self.alloc, 2)?;
        if let Some(batch) = self.end() {
            units.push_reserved(batch);
        }
        if let Some(unit) = last {
            units.push_reserved(unit);
        }
        Ok(UnitList::from_vec(units))
    }

    // Whether this item would take the pending batch over a limit.
    fn is_over(&self, item: &Item) -> bool
        ensures { result ≡ units.is_over self.now.horizon self.now.items item.now }
    {
        !self.pending.is_empty()
            && (self.budgets + budget_weight(&item.what) > MOST_BUDGETS
                || self.lengths + length_weight(self.horizon, &item.what) > MOST_LENGTHS)
    }

    // Adds a pending item.
    fn push(&mut self, item: Item) -> Result<(), OutOfMemory>
        requires room { length self.old.items < 63 }
        requires fits { units.is_over self.old.horizon self.old.items item ≡ false }
        ensures ok { OnOk result
            (self.new ≡ record self.old { items = self.old.items ++ item ∷ [] }) }
        ensures err { OnErr result (self.new ≡ self.old) }
    {
        let budgets = self.budgets + budget_weight(&item.what);
        let lengths = self.lengths + length_weight(self.horizon, &item.what);
        self.pending.push(item)?;
        self.budgets = budgets;
        self.lengths = lengths;
        Ok(())
    }

    // Closes the pending batch, and begins one with this item.
    fn begin_anew(&mut self, item: Item) -> Result<UnitList, OutOfMemory>
        requires { 0 < length self.old.items }
        ensures units { IfOk result (λ done. done ≡ closed_unit self.old.items) }
        ensures pending { OnOk result (self.new ≡ record self.old { items = item ∷ [] }) }
        ensures err { OnErr result (self.new ≡ self.old) }
    {
        let mut units = Vec::with_capacity(self.alloc, 1)?;
        let mut pending = Vec::new(self.alloc);
        let budgets = budget_weight(&item.what);
        let lengths = length_weight(self.horizon, &item.what);
        pending.push(item)?;
        let items = mem::replace(&mut self.pending, pending);
        self.budgets = budgets;
        self.lengths = lengths;
        units.push_reserved(Unit::Batch(ItemList::from_vec(items)));
        Ok(UnitList::from_vec(units))
    }

    // Closes the pending batch with this item as its last.
    fn close_with(&mut self, item: Item) -> Result<UnitList, OutOfMemory>
        ensures units { IfOk result (λ done. done ≡ closed_unit (self.old.items ++ item ∷ [])) }
        ensures pending { OnOk result (self.new ≡ record self.old { items = [] }) }
        ensures err { OnErr result (self.new ≡ self.old) }
    {
        let mut units = Vec::with_capacity(self.alloc, 1)?;
        self.pending.push(item)?;
        let items = mem::replace(&mut self.pending, Vec::new(self.alloc));
        self.budgets = 0;
        self.lengths = 0;
        units.push_reserved(Unit::Batch(ItemList::from_vec(items)));
        Ok(UnitList::from_vec(units))
    }

    fn add(&mut self, item: Item) -> Result<UnitList, OutOfMemory>
        ensures units { let done = with_item self.old.horizon self.old.items item
            in IfOk result (λ units. units ≡ done.units) }
        ensures pending { let done = with_item self.old.horizon self.old.items item
            in OnOk result (self.new ≡ record self.old { items = done.pending }) }
        ensures err { OnErr result (self.new ≡ self.old) }
    {
        if self.is_over(&item) {
            return self.begin_anew(item);
        }
        if self.pending.len() + 1 == MOST_ITEMS {
            return self.close_with(item);
        }
        self.push(item)?;
        Ok(UnitList::from_vec(Vec::new(self.alloc)))
    }
}
