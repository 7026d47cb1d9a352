//! Items, units, and lists of them.

ghost use Rattle.std.specs.Prelude.{◌≡◌};

use crate::line::{Asks, What, Window};
use std::marker::Model;
use texts::Text;

/// An item of a batch: the number of its line, counted from 1, and what the
/// line asks.
#[derive(Drop)]
pub struct Item {
    pub line: u32,
    pub what: What,
}

/// A list of items.
#[derive(Drop)]
pub struct ItemList {
    items: Vec<Item>,
}

impl Model for ItemList {
    ghost use Rattle.std.specs.Prelude.{List};
    ghost use Rattle.query_lines.specs.declared.unit.Item.{Item};

    ghost Value = { List Item };

    ghost view = { λ l. l.items.items };
}

impl ItemList {
    /// The list of these items.
    pub fn from_vec(items: Vec<Item>) -> ItemList
        ensures { result ≡ items.items }
    {
        ItemList { items }
    }

    /// The items, in order.
    pub fn as_slice(&self) -> &[Item]
        ensures { result.now ≡ self.now }
    {
        &self.items
    }

    /// The items as a vector.
    pub fn into_vec(self) -> Vec<Item>
        ensures { result.items ≡ self }
    {
        self.items
    }
}

/// A question: the number of its line, counted from 1, a window, and what is asked of it.
#[derive(Drop)]
pub struct Question {
    pub line: u32,
    pub window: Window,
    pub asks: Asks,
}

/// What is served as a whole.
#[derive(Drop)]
pub enum Unit {
    /// Items that are answered together.
    Batch(ItemList),
    /// Leave at most this many cells in every shard.
    Trim(u32),
    /// Report the session's counts.
    Stats,
    /// Answer a question.
    Question(Question),
    /// Write the waves of the last batch to this file.
    Vcd(Text),
}

/// A list of units.
#[derive(Drop)]
pub struct UnitList {
    units: Vec<Unit>,
}

impl Model for UnitList {
    ghost use Rattle.std.specs.Prelude.{List};
    ghost use Rattle.query_lines.specs.declared.unit.Unit.{Unit as ScriptUnit};

    ghost Value = { List ScriptUnit };

    ghost view = { λ l. l.units.items };
}

impl UnitList {
    /// The list of these units.
    pub fn from_vec(units: Vec<Unit>) -> UnitList
        ensures { result ≡ units.items }
    {
        UnitList { units }
    }

    /// The units, in order.
    pub fn as_slice(&self) -> &[Unit]
        ensures { result.now ≡ self.now }
    {
        &self.units
    }

    /// The units as a vector.
    pub fn into_vec(self) -> Vec<Unit>
        ensures { result.items ≡ self }
    {
        self.units
    }
}
