//! The runs of a waveform.

ghost use Rattle.std.specs.Prelude.{◌≡◌, ◌++◌, ◌∷◌, [], List, OnOk, OnErr};
ghost use Rattle.gate_values.specs.Gates.{same_value};
ghost use Rattle.window_walks.specs.Runs as runs;
ghost use Rattle.window_walks.specs.Runs.{maximal_runs, with_point};
ghost use Rattle.circuit_meaning.specs.declared.Run.{Run as RunRecord};

use circuit_meaning::Run;
use gate_values::Value;
use std::alloc::Global;
use std::marker::Model;
use texts::OutOfMemory;

/// The runs of a waveform: the times at which a value begins, in order.
#[derive(Drop)]
pub struct Runs {
    runs: Vec<Run>,
}

impl Model for Runs {
    ghost use Rattle.std.specs.Prelude.{List};
    ghost use Rattle.circuit_meaning.specs.declared.Run.{Run};

    ghost Value = { List Run };

    ghost view = { λ r. r.runs.items };
}

fn is_same(value: Value, other: Value) -> bool
    ensures { result ≡ same_value value other }
{
    value == other
}

impl Runs {
    /// No runs.
    pub fn new(alloc: Global) -> Runs
        ensures { result ≡ [] }
    {
        Runs {
            runs: Vec::new(alloc),
        }
    }

    /// Adds a time and its value. If the last run has the same value, it goes on;
    /// otherwise a run begins.
    pub fn push(&mut self, time: u32, value: Value) -> Result<(), OutOfMemory>
        ensures ok { let point : RunRecord = record { time = time; value = value }
            in OnOk result (self.new ≡ with_point self.old point) }

        // If the runs are those of some points, they become those of one more point.
        ensures maximal { (points : List RunRecord) → self.old ≡ maximal_runs points
            → let point : RunRecord = record { time = time; value = value }
            in OnOk result (self.new ≡ maximal_runs (points ++ point ∷ [])) }

        ensures err { OnErr result (self.new ≡ self.old) }
    {
        if !self.ends_in(value) {
            self.runs.push(Run { time, value })?;
        }
        Ok(())
    }

    fn ends_in(&self, value: Value) -> bool
        ensures { result ≡ runs.ends_in self.now value }
    {
        match self.runs.last() {
            Some(run) => is_same(run.value, value),
            None => false,
        }
    }

    /// The list of these runs.
    pub fn from_vec(runs: Vec<Run>) -> Runs
        ensures { result ≡ runs.items }
    {
        Runs { runs }
    }

    /// The runs, in order.
    pub fn as_slice(&self) -> &[Run]
        ensures { result.now ≡ self.now }
    {
        &self.runs
    }

    /// The runs as a vector.
    pub fn into_vec(self) -> Vec<Run>
        ensures { result.items ≡ self }
    {
        self.runs
    }
}
