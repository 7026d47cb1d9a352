//! The netlist that a text says.

ghost use Rattle.std.specs.Prelude.{◌≡◌, ◌<◌, length, position, slice_get, Some};
ghost use Rattle.std.specs.Str.{bytes_eq};
ghost use Rattle.bench_reader.specs.Netlists.{IsNetlist};
ghost use Rattle.bench_reader.specs.KeptNetlists.{driver_of_row};

use crate::names::Names;
use gate_values::Kind;
use std::marker::Model;

/// What the lines so far say of a signal's definition. In a netlist none is missing.
#[derive(Clone, Copy)]
pub enum Definition {
    /// None of them defines it, and this one is the first that names it.
    Missing { line: u32 },
    Input,
    /// The pins are `count` numbers of the netlist's list of pins, from `start` on.
    Gate { kind: Kind, count: u8, start: u32 },
}

/// What drives a signal: the outside, or a gate or flip-flop with these pins in order.
#[derive(Clone, Copy)]
pub enum Row<'a> {
    Input,
    Gate { kind: Kind, pins: &'a [u32] },
}

/// The signals of a netlist, numbered from 0 in the order in which their names first appear.
///
/// It holds each name once and the pins of all gates in one list. A name is looked up by hashing,
/// and the other calls read one place.
#[derive(Drop)]
pub struct Netlist {
    pub(crate) names: Names,
    pub(crate) rows: Vec<Definition>,
    pub(crate) pins: Vec<u32>,
    pub(crate) outputs: Vec<u32>,
}

impl Model for Netlist {
    ghost use Rattle.bench_reader.specs.Netlists.{Content};
    ghost use Rattle.bench_reader.specs.inner.KeptNetlists.{content, IsKeptName};

    ghost Value = { Content };

    ghost view = { λ n. content n.names n.rows.items n.pins.items n.outputs.items };

    ghost invariant = { λ n. IsKeptName n.names n.rows.items n.pins.items n.outputs.items };
}

impl Netlist {
    /// The law of every netlist, which the join of a design needs: each row fits the names, and no name stands twice. It does nothing.
    pub fn facts(&self)
        ensures { IsNetlist self.now }
    {
        let _ = &self.rows;
    }

    /// How many signals there are.
    pub fn signals(&self) -> u32
        ensures { result ≡ length self.now.names }
    {
        self.names.len() as u32
    }

    /// The number of the signal of this name, if there is one. One look-up by hashing.
    pub fn id_of(&self, name: &[u8]) -> Option<u32>
        ensures { result ≡ position (bytes_eq name.now) self.now.names }
    {
        self.names.find(name)
    }

    /// The name of a signal.
    pub fn name_of(&self, id: u32) -> &[u8]
        requires { id < length self.now.names }
        ensures { slice_get self.now.names id ≡ Some result.now }
    {
        self.names.get(id as usize)
    }

    /// What drives a signal.
    pub fn row(&self, id: u32) -> Row<'_>
        requires { id < length self.now.names }
        ensures { slice_get self.now.rows id ≡ Some (driver_of_row result) }
    {
        match self.rows[id as usize] {
            Definition::Gate { kind, count, start } => {
                let from_start = self.pins.as_slice().split_at(start as usize).1;
                Row::Gate {
                    kind,
                    pins: from_start.split_at(count as usize).0,
                }
            }
            Definition::Input | Definition::Missing { .. } => Row::Input,
        }
    }

    /// The outputs, each once, in the order of their first OUTPUT lines.
    pub fn outputs(&self) -> &[u32]
        ensures { result.now ≡ self.now.outputs }
    {
        &self.outputs
    }
}
