//! Reading the texts. A reader's refusal is returned as a lack of memory.

ghost use Rattle.std.specs.Prelude.{◌≡◌, ◌≤◌, ◌<◌, ◌∷◌, [], length, Ok, IfOk};
ghost use Rattle.bench_reader.specs.Netlists.{bench_of};
ghost use Rattle.timing_file.specs.Timing.{timing_of};
ghost use Rattle.stimulus_file.specs.Stimulus.{stimulus_of};
ghost use Rattle.design.specs.Join.{design_of};
ghost use Rattle.query_lines.specs.Reading.{script_units};
ghost use Rattle.query_lines.specs.declared.unit.Unit.TheVariants.{Batch};

use bench_reader::{Netlist, read_bench};
use design::Design;
use query_lines::{ItemList, Unit, UnitList, read_script};
use std::alloc::Global;
use stimulus_file::{Stimulus, read_stimulus};
use texts::OutOfMemory;
use timing_file::{Timing, read_timing};

/// The greatest length that the readers take.
const FILE_LIMIT: usize = 67_108_864;

const HORIZON: u32 = 100_000;

pub fn netlist_in(alloc: Global, text: &[u8]) -> Result<Netlist, OutOfMemory>
    ensures { IfOk result (λ netlist. bench_of text.now ≡ Ok netlist) }
{
    if text.len() > FILE_LIMIT {
        return Err(OutOfMemory);
    }
    match read_bench(alloc, text) {
        Ok(netlist) => Ok(netlist),
        Err(_) => Err(OutOfMemory),
    }
}

pub fn timing_in(alloc: Global, text: &[u8]) -> Result<Timing, OutOfMemory>
    ensures { IfOk result (λ timing. timing_of text.now ≡ Ok timing) }
{
    if text.len() > FILE_LIMIT {
        return Err(OutOfMemory);
    }
    match read_timing(alloc, text) {
        Ok(timing) => Ok(timing),
        Err(_) => Err(OutOfMemory),
    }
}

pub fn stimulus_in(alloc: Global, text: &[u8]) -> Result<Stimulus, OutOfMemory>
    ensures { IfOk result (λ stimulus. stimulus_of text.now ≡ Ok stimulus) }
{
    if text.len() > FILE_LIMIT {
        return Err(OutOfMemory);
    }
    match read_stimulus(alloc, text) {
        Ok(stimulus) => Ok(stimulus),
        Err(_) => Err(OutOfMemory),
    }
}

pub fn joined(
    alloc: Global,
    netlist: Netlist,
    timing: &Timing,
    stimulus: &Stimulus,
) -> Result<Design, OutOfMemory>
    ensures { IfOk result (λ design. design_of netlist timing.now stimulus.now ≡ Ok design) }
{
    match Design::join(alloc, netlist, timing, stimulus) {
        Ok(design) => Ok(design),
        Err(_) => Err(OutOfMemory),
    }
}

/// The items of a script that is one batch.
pub fn items_in(alloc: Global, script: &[u8]) -> Result<ItemList, OutOfMemory>
    ensures { IfOk result (λ items. script_units 100000 script.now ≡ Batch items ∷ []) }
{
    if script.len() > FILE_LIMIT {
        return Err(OutOfMemory);
    }
    only_batch(read_script(alloc, HORIZON, script)?)
}

fn only_batch(units: UnitList) -> Result<ItemList, OutOfMemory>
    ensures { IfOk result (λ items. units ≡ Batch items ∷ []) }
{
    let mut units = units.into_vec();
    match units.pop() {
        Some(Unit::Batch(items)) if units.is_empty() => Ok(items),
        _ => Err(OutOfMemory),
    }
}
