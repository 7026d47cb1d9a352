//! The outputs, each once.

ghost use Rattle.std.specs.Prelude.{◌≡◌, [], nat_eq, OnOk};
ghost use Rattle.indexmap.specs.IndexSet.{insert_key};

use std::alloc::{AllocError, Global};
use std::marker::Model;

/// Numbers, each once, in the order in which they came.
#[derive(Drop)]
pub struct Outputs {
    numbers: Vec<u32>,
    /// For each number up to the greatest that came whether it came.
    flags: Vec<bool>,
}

impl Model for Outputs {
    ghost use Rattle.std.specs.Prelude.{List, ℕ};

    ghost Value = { List ℕ };

    ghost use Rattle.bench_reader.specs.inner.Outputs.{AreFlags};

    ghost view = { λ o. o.numbers.items };

    ghost invariant = { λ o. AreFlags o.numbers.items o.flags.items };
}

impl Outputs {
    /// No numbers.
    pub fn new(alloc: Global) -> Outputs
        ensures { result ≡ [] }
    {
        Outputs {
            numbers: Vec::new(alloc),
            flags: Vec::new(alloc),
        }
    }

    /// Adds a number, where it isn't there yet.
    pub fn insert(&mut self, number: u32) -> Result<(), AllocError>
        ensures { OnOk result (self.new ≡ insert_key nat_eq self.old number) }
    {
        let place = number as usize;
        if place >= self.flags.len() {
            self.flags.resize(place + 1, false)?;
        }
        if !self.flags[place] {
            self.numbers.push(number)?;
            self.flags[place] = true;
        }
        Ok(())
    }

    /// The numbers.
    pub fn into_vec(self) -> Vec<u32>
        ensures { result.items ≡ self }
    {
        self.numbers
    }
}
