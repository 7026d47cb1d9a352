//! The drawn parts of a workload. Each text is written, read and dropped.

ghost use Rattle.std.specs.Prelude.{◌≡◌, ◌∷◌, [], Ok, IfOk, OnOk};
ghost use Rattle.bench_reader.specs.Netlists.{bench_of};
ghost use Rattle.stimulus_file.specs.Stimulus.{stimulus_of};
ghost use Rattle.query_lines.specs.Reading.{script_units};
ghost use Rattle.query_lines.specs.declared.unit.Unit.TheVariants.{Batch};
ghost use Rattle.workload.specs.Texts as texts;
ghost use Rattle.workload.specs.inner.Drawn.{HasInputs};

use crate::draws::Draws;
use crate::read::{items_in, joined, netlist_in, stimulus_in, timing_in};
use crate::writing::{netlist_text, script_text, stimulus_text};
use bench_reader::Netlist;
use design::Design;
use query_lines::ItemList;
use std::alloc::Global;
use stimulus_file::Stimulus;
use texts::OutOfMemory;

/// The netlist; its gates use the first draws.
pub fn drawn_netlist(alloc: Global, draws: &mut Draws) -> Result<Netlist, OutOfMemory>
    requires { draws.old.made ≡ 0 }
    ensures netlist { IfOk result (λ netlist. bench_of (texts.netlist_text draws.old.seed) ≡ Ok netlist) }
    ensures seed { draws.new.seed ≡ draws.old.seed }
    ensures made { OnOk result (draws.new.made ≡ 200000) }
{
    let text = netlist_text(alloc, draws)?;
    netlist_in(alloc, &text)
}

/// The stimulus; its settings use the draws after those of the gates.
fn drawn_stimulus(alloc: Global, draws: &mut Draws) -> Result<Stimulus, OutOfMemory>
    requires { draws.old.made ≡ 200000 }
    ensures stimulus { IfOk result
        (λ stimulus. stimulus_of (texts.stimulus_text draws.old.seed) ≡ Ok stimulus) }
    ensures seed { draws.new.seed ≡ draws.old.seed }
    ensures made { OnOk result (draws.new.made ≡ 360016) }
{
    let text = stimulus_text(alloc, draws)?;
    stimulus_in(alloc, &text)
}

/// The circuit of this netlist, with delays of 1 and with the drawn stimulus.
pub fn drawn_design(
    alloc: Global,
    netlist: Netlist,
    draws: &mut Draws,
) -> Result<Design, OutOfMemory>
    requires { draws.old.made ≡ 200000 }
    ensures inputs { IfOk result (HasInputs draws.old.seed netlist) }
    ensures seed { draws.new.seed ≡ draws.old.seed }
    ensures made { OnOk result (draws.new.made ≡ 360016) }
{
    let timing = timing_in(alloc, b"default 1\n")?;
    let stimulus = drawn_stimulus(alloc, draws)?;
    joined(alloc, netlist, &timing, &stimulus)
}

/// The items of the script; they use the draws after those of the settings.
pub fn drawn_items(alloc: Global, draws: &mut Draws) -> Result<ItemList, OutOfMemory>
    requires { draws.old.made ≡ 360016 }
    ensures { IfOk result
        (λ items. script_units 100000 (texts.script_text draws.old.seed) ≡ Batch items ∷ []) }
{
    let text = script_text(alloc, draws)?;
    items_in(alloc, &text)
}
