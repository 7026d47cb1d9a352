//! The cells that a proof lists.

ghost use Rattle.std.specs.Prelude.{◌≡◌, ◌↔◌, IsTrue, List};
ghost use Rattle.valid_intervals.specs.declared.SignalCell.{SignalCell};
ghost use Rattle.why_proofs.specs.inner.Reading.{line_of};

use gate_values::Value;
use std::marker::Model;
use valid_intervals::{Cell, SignalCell};

/// Cells of signals, in order.
#[derive(Debug, Drop)]
pub struct CellList {
    cells: Vec<SignalCell>,
}

impl Model for CellList {
    ghost Value = { List SignalCell };

    ghost view = { λ list. list.cells.items };
}

impl CellList {
    /// The list of these cells.
    pub fn from_vec(cells: Vec<SignalCell>) -> CellList
        ensures { result ≡ cells.items }
    {
        CellList { cells }
    }

    /// The cells.
    pub fn as_slice(&self) -> &[SignalCell]
        ensures { result.now ≡ self.now }
    {
        &self.cells
    }

    /// The cells, given up.
    pub fn into_vec(self) -> Vec<SignalCell>
        ensures { result.items ≡ self }
    {
        self.cells
    }
}

/// What a cell line says. There may be no such cell: any four fields are read.
#[derive(Drop)]
pub struct CellLine {
    signal: u32,
    start: u32,
    end: u32,
    value: Value,
}

impl Model for CellLine {
    ghost use Rattle.valid_intervals.specs.declared.SignalCell.{SignalCell};
    ghost use Rattle.why_proofs.specs.inner.Reading.{line_of};

    ghost Value = { SignalCell };

    ghost view = { λ l. line_of l.signal l.start l.end l.value };
}

impl CellLine {
    /// The line of these fields.
    pub fn new(signal: u32, start: u32, end: u32, value: Value) -> CellLine
        ensures { result ≡ line_of signal start end value }
    {
        CellLine {
            signal,
            start,
            end,
            value,
        }
    }

    /// The number of the signal.
    pub fn signal(&self) -> u32
        ensures { result ≡ self.now.signal }
    {
        self.signal
    }

    /// The time at which the cell begins.
    pub fn start(&self) -> u32
        ensures { result ≡ self.now.cell.span.start }
    {
        self.start
    }

    /// Whether it says this cell.
    pub fn says(&self, cell: &Cell) -> bool
        ensures { IsTrue result ↔ (self.now.cell ≡ cell.now) }
    {
        self.start == cell.span.start() && self.end == cell.span.end() && self.value == cell.value
    }
}
