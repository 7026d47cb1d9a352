//! The meaning of a circuit: the values of its signals by full forward simulation, their cells, and the points that a query needs.
//!
//! The contracts of other crates promise what is defined here. The definitions stand in `specs/`, to be read in this order:
//!
//! - `Edges`: the edges of clocks, and the one that a flip-flop shows at a time;
//! - `Circuit`: what drives each signal (an input with its settings, a gate with a delay for each pin, a flip-flop with a clock), when
//!   drivers make a circuit, and the limits within which the program accepts one;
//! - `Forward`: the rows of values for the times 0 to the horizon, each made from the earlier rows. Delays are transport delays: even the
//!   shortest pulse passes. A signal's waveform is the list of its maximal runs;
//! - `Cells`: the interval around a time in which a signal keeps its value for the same cause;
//! - `Base`: the points that need no evaluation; every other point is evaluable;
//! - `Need`: the children of a point, the roots of a query, the points that it needs, and the fan-in cone of a signal;
//! - `Looks`: what a point looks at, in one form for gates and flip-flops;
//! - `Forced`: a circuit with one signal forced to a value, and the signals that are free of it;
//! - `Laws`: theorems on these definitions.
//!
//! The root file has small structs, which are the records of the definitions, and functions without a body, each with a law as its
//! contract. The laws are proved here, and other crates cite them. `src/flip_flop.rt` computes which edge a flip-flop shows, and how long.
//! The definitions recur on time over every earlier row, but no program has to compute these rows. `reference_simulator` is a plain program
//! whose contract is the value defined here.
//!
//! ```
//! let pin = Pin { signal: 0, delay: 3 };
//! let window = Window { signal: 1, start: 0, stop: 11 };
//! ```
#![tactic(auto)]

ghost use Rattle.circuit_meaning.specs.Laws.{ValuesFollow, SpansFollow, ForwardHolds, OnlyInputsShowZ, CellsCover, CellsAreSteady, BaseAnswersAreCells};
ghost use Rattle.circuit_meaning.specs.Laws.{ChildrenAreEarlier, NeededAreInCone, RootsReach, NeededAlone, NeedIsClosed, PartsNeedNoMore};
ghost use Rattle.circuit_meaning.specs.Laws.{WavesAreChanges, WavesAreMaximal, WavesGrowByCells, CellsFixWaves};
ghost use Rattle.circuit_meaning.specs.Looks.{ChildrenAreLooked};
ghost use Rattle.circuit_meaning.specs.Forced.{FreeAreAlike, FreeNeedIsNeeded, ForcedNeedIsClosed};
ghost use Rattle.circuit_meaning.specs.Circuit.{Circuit};
ghost use Rattle.std.specs.Prelude.{ℕ};

mod flip_flop;

pub use flip_flop::{Clock, edges_are_last, flop_span, last_edge};
use gate_values::Value;

/// A setting: the input has this value from this time until its next setting.
#[derive(Clone, Copy, Debug, PartialEq, Eq)]
pub struct Setting {
    pub time: u32,
    pub value: Value,
}

/// A pin of a gate: the signal that it reads, and its delay.
#[derive(Clone, Copy, Debug, PartialEq, Eq)]
pub struct Pin {
    pub signal: u32,
    pub delay: u32,
}

/// A flip-flop: after a delay, it shows its pin at the last edge of its clock.
#[derive(Clone, Copy, Debug, PartialEq, Eq)]
pub struct FlipFlop {
    pub pin: u32,
    pub delay: u32,
    pub clock: Option<Clock>,
    pub initial: Value,
}

/// A query's window: a signal, and the times `[start, stop)`.
#[derive(Clone, Copy, Debug, PartialEq, Eq)]
pub struct Window {
    pub signal: u32,
    pub start: u32,
    pub stop: u32,
}

/// A maximal run of a waveform: the signal has this value from this time on.
#[derive(Clone, Copy, Debug, PartialEq, Eq)]
pub struct Run {
    pub time: u32,
    pub value: Value,
}

/// The driver gives each value from the values of earlier times, and each interval from earlier intervals.
pub fn values_follow()
    ensures values { ValuesFollow }
    ensures spans { SpansFollow }
{}

/// The values are those of the rows of the forward simulation.
pub fn forward_holds()
    ensures { ForwardHolds }
{}

/// No gate and no flip-flop ever has the value z.
pub fn only_inputs_show_z()
    ensures { OnlyInputsShowZ }
{}

/// Each time up to the horizon is in its own cell, and no cell ends later than just after the horizon. By this law and
/// [`cells_are_steady`], the cells of a signal partition the simulated time.
pub fn cells_cover()
    ensures { CellsCover }
{}

/// The value, the cell and the looked pins are the same at all times of a cell.
pub fn cells_are_steady()
    ensures { CellsAreSteady }
{}

/// A base answer is the cell. It exists exactly when the point is not evaluable.
pub fn base_answers_are_cells()
    ensures { BaseAnswersAreCells }
{}

/// A child's time is less than its parent's, so every demand ends.
pub fn children_are_earlier()
    ensures { ChildrenAreEarlier }
{}

/// The children of a point are the points that its looked pins read, in their order.
pub fn children_are_looked()
    ensures { ChildrenAreLooked }
{}

/// The points that a query needs are of signals in the fan-in cone of the query's signal.
pub fn needed_are_in_cone()
    ensures { NeededAreInCone }
{}

/// The points that a query needs are closed under evaluable children.
pub fn need_is_closed()
    ensures { NeedIsClosed }
{}

/// Each time of a query's window is in the cell of a root.
pub fn roots_reach()
    ensures { RootsReach }
{}

/// If a query needs a point, it needs all that a query for that point needs.
pub fn needed_alone()
    ensures { NeededAlone }
{}

/// A query needs all that a part of its window needs, if the part begins at a root.
pub fn parts_need_no_more()
    ensures { PartsNeedNoMore }
{}

/// A waveform is its first run and the changes after it. Its times ascend, and consecutive values differ.
pub fn waves_are_changes()
    ensures changes { (c : Circuit) (s : ℕ) → WavesAreChanges c s }
    ensures maximal { WavesAreMaximal }
{}

/// The cells of the roots determine the waveform of a window. Walked from cell to cell, it gets a run at its start and at each time whose
/// value differs from the value just before, and no other run.
pub fn cells_fix_waves()
    ensures grows { WavesGrowByCells }
    ensures whole { CellsFixWaves }
{}

/// A signal is free of a forced signal that is not in its fan-in cone. Free signals have the same values, cells, looked pins and children
/// in both circuits.
pub fn free_are_alike()
    ensures { FreeAreAlike }
{}

/// If a query for a free signal needs a point, it needs the point in the forced circuit too. The free points that a query needs in the
/// forced circuit are closed under children in the original one, so the memo of the original circuit may answer them.
pub fn free_need_is_needed()
    ensures held { FreeNeedIsNeeded }
    ensures closed { ForcedNeedIsClosed }
{}
