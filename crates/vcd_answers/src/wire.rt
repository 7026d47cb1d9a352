//! The wires of a dump.
ghost use Rattle.std.specs.Prelude.{◌≡◌, ℕ, ◌+◌, ◌≤◌, ◌<◌, ◌++◌, ◌∷◌, [], List, length, IsTrue, OnOk, IfOk, ◌↔◌};
ghost use Rattle.std.specs.List.{list_all};
ghost use Rattle.gate_values.specs.Gates.{same_value};
ghost use Rattle.circuit_meaning.specs.Circuit.{Circuit};
ghost use Rattle.circuit_meaning.specs.Forward.{wave};
ghost use Rattle.texts.specs.Text as text;
ghost use Rattle.window_walks.specs.Runs.{maximal_runs};
ghost use Rattle.vcd_answers.specs.Wires.{wire_of_query, before_window, wire_runs, goes_on, are_changes, AreWires};
ghost use Rattle.vcd_answers.specs.Wires as wires;
ghost use Rattle.vcd_answers.specs.inner.Reading.{blank, put_at};

use circuit_meaning::Run;
use gate_values::Value;
use std::alloc::Global;
use std::marker::Model;
use texts::{OutOfMemory, is_name};
use window_walks::Runs;

/// A wire of a dump: its name, and the times at which a value begins.
#[derive(Debug, Drop)]
pub struct Wire {
    name: Vec<u8>,
    changes: Vec<Run>,
}

impl Model for Wire {
    ghost use Rattle.vcd_answers.specs.Wires.{Wire};

    ghost Value = { Wire };

    ghost view = { λ w. record { name = w.name.items; changes = w.changes.items } };
}

impl Wire {
    /// The bytes of the name.
    pub fn name(&self) -> &[u8]
        ensures { result.now ≡ self.now.name }
    {
        &self.name
    }

    /// The changes, in order. If a dump can hold the wire, the first change is at time 0, times ascend up to 1,000,001 at
    /// most, and consecutive values differ.
    pub fn changes(&self) -> &[Run]
        ensures { result.now ≡ self.now.changes }
    {
        &self.changes
    }

    /// Whether a dump can hold the wire: its name follows the rules of the text files, and its changes are those of a wire.
    pub fn is_wire(&self) -> bool
        ensures { result ≡ wires.is_wire self.now }
    {
        is_name(&self.name) && are_changes(&self.changes)
    }
}

fn is_same(value: Value, other: Value) -> bool
    ensures { result ≡ same_value value other }
{
    value == other
}

fn are_changes(changes: &[Run]) -> bool
    ensures { result ≡ are_changes changes.now }
{
    match changes {
        [] => false,
        [first, rest @ ..] => first.time == 0 && goes_on(*first, rest),
    }
}

fn goes_on(first: Run, rest: &[Run]) -> bool
    ensures { result ≡ goes_on first rest.now }
{
    let mut last = first;
    for run in rest {
        if run.time <= last.time || is_same(last.value, run.value) {
            return false;
        }
        last = *run;
    }
    last.time <= 1_000_001
}

/// The wires of a dump, in the order of their codes.
#[derive(Debug, Drop)]
pub struct WireList {
    wires: Vec<Wire>,
}

impl Model for WireList {
    ghost use Rattle.std.specs.Prelude.{List};
    ghost use Rattle.vcd_answers.specs.Wires.{Wire};

    ghost Value = { List Wire };

    ghost view = { λ list. list.wires.items };
}

impl WireList {
    /// The list of these wires.
    pub fn from_vec(wires: Vec<Wire>) -> WireList
        ensures { result ≡ wires.items }
    {
        WireList { wires }
    }

    /// The wires.
    pub fn as_slice(&self) -> &[Wire]
        ensures { result.now ≡ self.now }
    {
        &self.wires
    }

    /// The wires as a vector.
    pub fn into_vec(self) -> Vec<Wire>
        ensures { result.items ≡ self }
    {
        self.wires
    }

    /// Whether a dump can hold the wires: at most 64, each a wire by [`Wire::is_wire`]. Takes time linear in the changes.
    pub fn are_wires(&self) -> bool
        ensures { IsTrue result ↔ AreWires self.now }
    {
        self.wires.len() <= 64 && each_is_wire(&self.wires)
    }
}

fn each_is_wire(list: &[Wire]) -> bool
    ensures { result ≡ list_all wires.is_wire list.now }
{
    list.iter().all(|wire| wire.is_wire())
}

// For the reader, which makes wires.
impl Wire {
    // A wire without changes.
    pub(crate) fn blank(alloc: Global, name: &[u8]) -> Result<Wire, OutOfMemory>
        ensures { IfOk result (λ wire. wire ≡ blank name.now) }
    {
        let name = name.to_vec(alloc)?;
        Ok(Wire {
            name,
            changes: Vec::new(alloc),
        })
    }

    // Adds a change.
    pub(crate) fn push(&mut self, run: Run) -> Result<(), OutOfMemory>
        ensures { OnOk result (self.new ≡ record self.old
            { changes = self.old.changes ++ run ∷ [] }) }
    {
        self.changes.push(run)?;
        Ok(())
    }
}

impl WireList {
    // Adds a change to the wire at this place.
    pub(crate) fn push_change(&mut self, place: usize, run: Run) -> Result<(), OutOfMemory>
        requires { place < length self.old }
        ensures { OnOk result (self.new ≡ put_at place run self.old) }
    {
        self.wires[place].push(run)
    }
}

/// The wire of an answered query, whose window is `[start, stop)`: its runs inside the window, and x at the other times
/// from 0 to just after the horizon. A window that ends with the simulation ends just after the horizon. A window whose end
/// is not after its start is empty. Takes time and memory linear in the runs.
pub fn wire_of(
    alloc: Global,
    name: &[u8],
    start: u32,
    stop: u32,
    runs: &Runs,
    horizon: u32,
) -> Result<Wire, OutOfMemory>
    requires horizon { horizon ≤ 1000000 }
    requires stop { stop ≤ horizon + 1 }
    // If the runs are the waveform of the window, this is the wire of the query.
    ensures answered { (c : Circuit) (s : ℕ) → c.horizon ≡ horizon → runs.now ≡ wave c s start stop
        → IfOk result (λ wire. wire ≡ wire_of_query name.now c s start stop) }
    // A dump can hold such a wire.
    ensures sound { (c : Circuit) (s : ℕ) → runs.now ≡ wave c s start stop
        → IsTrue (text.is_name name.now)
        → IfOk result (λ wire. IsTrue (wires.is_wire wire)) }
    // For any runs: the wire has x before the window, the runs, and x from the window's end on, each at its time.
    // Neighbours with one value are one change.
    ensures runs { IfOk result (λ wire. wire ≡ record
        { name = name.now; changes = maximal_runs (wire_runs start stop runs.now) }) }
{
    let name = name.to_vec(alloc)?;
    let points = framed_runs(alloc, start, stop, runs.as_slice())?;
    Ok(Wire {
        name,
        changes: points.into_vec(),
    })
}

fn framed_runs(alloc: Global, start: u32, stop: u32, runs: &[Run]) -> Result<Runs, OutOfMemory>
    ensures { IfOk result (λ points. points ≡ maximal_runs (wire_runs start stop runs.now)) }
{
    let mut points = runs_before(alloc, start)?;
    for run in runs {
        points.push(run.time, run.value)?;
    }
    points.push(stop, Value::X)?;
    Ok(points)
}

// The runs before a window.
fn runs_before(alloc: Global, start: u32) -> Result<Runs, OutOfMemory>
    ensures { IfOk result (λ points. points ≡ maximal_runs (before_window start)) }
{
    let mut points = Runs::new(alloc);
    if start > 0 {
        points.push(0, Value::X)?;
    }
    Ok(points)
}
