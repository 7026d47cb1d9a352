//! A workload of fixed size and drawn content: a circuit, its inputs over time, and queries.
//!
//! A workload has a number, the seed of its draws. Its circuit has 16 inputs and 100 layers of 2,000 gates of two
//! pins, whose kinds are drawn. Each gate reads two neighbours in the layer below, and every delay is 1. The
//! inputs are set to drawn values at every tenth instant up to the horizon, 100,000. Sixteen items ask for
//! signals of the last layer at drawn times; they are one batch. Full forward simulation takes 20,000,000,000
//! evaluations. The items need at most 121,200.
//!
//! `specs/Texts` defines a workload as four texts: a netlist, a timing file, a stimulus file and a script, in the
//! forms of `bench_reader`, `timing_file`, `stimulus_file` and `query_lines`. [`workload`] writes these texts,
//! reads them by the readers of those crates and joins them. A session over a workload is therefore the session
//! over its texts (`specs/Workload`). `specs/Draws` has the generator.
//!
//! That the readers accept the texts is tested, not proved. A refusal would be returned as `OutOfMemory`, the
//! only error.
//!
//! The texts have about ten million bytes. Each is dropped once it is read.
//!
//! ```text
//! let Work { design, items } = workload(alloc, 7)?;
//! ```
#![tactic(auto)]

ghost use Rattle.std.specs.Prelude.{◌≤◌, IfOk};
ghost use Rattle.workload.specs.Workload.{IsWork};

mod drawn;
mod draws;
mod lines;
mod read;
mod words;
mod writing;

use crate::drawn::{drawn_design, drawn_items, drawn_netlist};
use crate::draws::Draws;
use design::Design;
use query_lines::ItemList;
use std::alloc::Global;
use texts::OutOfMemory;

/// A circuit with its inputs, and the items of one batch.
#[derive(Drop)]
pub struct Work {
    pub design: Design,
    pub items: ItemList,
}

/// The workload with this number, of 31 bits.
pub fn workload(alloc: Global, number: u32) -> Result<Work, OutOfMemory>
    requires { number ≤ 2147483647 }
    ensures { IfOk result (IsWork number) }
{
    let mut draws = Draws::new(number);
    let netlist = drawn_netlist(alloc, &mut draws)?;
    let design = drawn_design(alloc, netlist, &mut draws)?;
    let items = drawn_items(alloc, &mut draws)?;
    Ok(Work { design, items })
}
