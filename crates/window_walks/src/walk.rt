//! The walk of a window from cell to cell.

ghost use Rattle.std.specs.Prelude.{◌≡◌, ℕ, ◌+◌, ◌<◌, ◌≤◌, [], OnOk, OnErr, IfSome, IfNone};
ghost use Rattle.circuit_meaning.specs.Cells as cells;
ghost use Rattle.circuit_meaning.specs.Circuit.{Circuit, IsCircuit};
ghost use Rattle.circuit_meaning.specs.Forward.{wave};
ghost use Rattle.circuit_meaning.specs.declared.Run.{Run as RunRecord};
ghost use Rattle.window_walks.specs.Runs.{with_point};
ghost use Rattle.window_walks.specs.Walks.{IsWalked};

use crate::runs::Runs;
use std::alloc::Global;
use std::marker::Model;
use texts::OutOfMemory;
use valid_intervals::Cell;

/// A window of a signal that is walked from cell to cell, and its runs so far.
#[derive(Drop)]
pub struct WindowWalk {
    start: u32,
    stop: u32,
    time: u32,
    runs: Runs,
}

impl Model for WindowWalk {
    ghost use Rattle.window_walks.specs.Walks.{Walk};

    ghost Value = { Walk };

    ghost view = { λ w. record { start = w.start; stop = w.stop; time = w.time; runs = w.runs } };
}

impl WindowWalk {
    /// The window `[start, stop)`. Nothing is walked yet.
    pub fn new(alloc: Global, start: u32, stop: u32) -> WindowWalk
        ensures start { result.start ≡ start }
        ensures stop { result.stop ≡ stop }
        ensures time { result.time ≡ start }
        ensures runs { result.runs ≡ [] }
        ensures walked { (c : Circuit) (s : ℕ) → IsWalked c s result }
    {
        WindowWalk {
            start,
            stop,
            time: start,
            runs: Runs::new(alloc),
        }
    }

    /// The first time that is not walked yet; none if the walk is complete.
    pub fn next(&self) -> Option<u32>
        ensures some { IfSome result (λ time. (time ≡ self.now.time) × (time < self.now.stop)) }
        ensures none { IfNone result (self.now.stop ≤ self.now.time) }
    {
        if self.time < self.stop {
            Some(self.time)
        } else {
            None
        }
    }

    /// Goes over the cell at the next time.
    pub fn push(&mut self, cell: Cell) -> Result<(), OutOfMemory>
        requires { self.old.time < self.old.stop }
        ensures start { OnOk result (self.new.start ≡ self.old.start) }
        ensures stop { OnOk result (self.new.stop ≡ self.old.stop) }
        ensures time { OnOk result (self.new.time ≡ cell.span.stop) }
        ensures runs { let point : RunRecord = record { time = self.old.time; value = cell.value }
            in OnOk result (self.new.runs ≡ with_point self.old.runs point) }
        ensures walked { (c : Circuit) (s : ℕ) → IsWalked c s self.old
            → cell ≡ cells.cell_at c (cells.point_at s self.old.time)
            → OnOk result (IsWalked c s self.new) }
        ensures err { OnErr result (self.new ≡ self.old) }
    {
        self.runs.push(self.time, cell.value)?;
        self.time = cell.span.end();
        Ok(())
    }

    /// The runs so far. If the walk is complete, they are the waveform.
    pub fn into_runs(self) -> Runs
        ensures runs { result ≡ self.runs }
        ensures wave { (c : Circuit) (s : ℕ) → IsCircuit c → IsWalked c s self
            → self.stop ≤ self.time → self.stop ≤ c.horizon + 1
            → result ≡ wave c s self.start self.stop }
    {
        self.runs
    }
}
