//! Writing the texts, line by line, with one draw after another.

ghost use Rattle.std.specs.Prelude.{◌≡◌, ◌≤◌, ◌<◌, ◌+◌, ◌*◌, ◌++◌, IfOk, OnOk};
ghost use Rattle.workload.specs.Texts as texts;
ghost use Rattle.workload.specs.Texts.{lines_of};

use crate::draws::Draws;
use crate::lines::{
    put, put_gate_line, put_input_line, put_output_line, put_query_line, put_setting_line,
};
use std::alloc::Global;
use texts::OutOfMemory;

const LAYER: u32 = 2000;

const INPUTS: u32 = 16;

/// More bytes than a netlist and a stimulus have.
const NETLIST_ROOM: usize = 9_000_000;

const STIMULUS_ROOM: usize = 4_000_000;

/// The netlist; its gates use the first draws.
pub fn netlist_text(alloc: Global, draws: &mut Draws) -> Result<Vec<u8>, OutOfMemory>
    requires { draws.old.made ≡ 0 }
    ensures text { IfOk result (λ text. text.items ≡ texts.netlist_text draws.old.seed) }
    ensures seed { draws.new.seed ≡ draws.old.seed }
    ensures made { OnOk result (draws.new.made ≡ 200000) }
{
    let mut text = Vec::with_capacity(alloc, NETLIST_ROOM)?;
    put_inputs(&mut text, INPUTS)?;
    put_gates(&mut text, draws, 200_000)?;
    put_outputs(&mut text, LAYER)?;
    Ok(text)
}

fn put_inputs(text: &mut Vec<u8>, many: u32) -> Result<(), OutOfMemory>
    ensures { OnOk result (text.new.items ≡ text.old.items ++ lines_of texts.input_line many) }
{
    for number in 0..many {
        put_input_line(text, number)?;
    }
    Ok(())
}

fn put_gates(text: &mut Vec<u8>, draws: &mut Draws, many: u32) -> Result<(), OutOfMemory>
    requires { draws.old.made ≡ 0 }
    ensures text { OnOk result (text.new.items ≡ text.old.items ++ lines_of
        (texts.gate_line draws.old.seed) many) }
    ensures seed { draws.new.seed ≡ draws.old.seed }
    ensures made { OnOk result (draws.new.made ≡ many) }
{
    for number in 0..many {
        let kind = draws.next() % 6;
        put_gate_line(text, number / LAYER, number % LAYER, kind)?;
    }
    Ok(())
}

fn put_outputs(text: &mut Vec<u8>, many: u32) -> Result<(), OutOfMemory>
    ensures { OnOk result (text.new.items ≡ text.old.items ++ lines_of texts.output_line many) }
{
    for place in 0..many {
        put_output_line(text, place)?;
    }
    Ok(())
}

/// The stimulus; its settings use the draws after those of the gates.
pub fn stimulus_text(alloc: Global, draws: &mut Draws) -> Result<Vec<u8>, OutOfMemory>
    requires { draws.old.made ≡ 200000 }
    ensures text { IfOk result (λ text. text.items ≡ texts.stimulus_text draws.old.seed) }
    ensures seed { draws.new.seed ≡ draws.old.seed }
    ensures made { OnOk result (draws.new.made ≡ 360016) }
{
    let mut text = Vec::with_capacity(alloc, STIMULUS_ROOM)?;
    put(&mut text, b"horizon 100000\n")?;
    put_settings(&mut text, draws, 160_016)?;
    Ok(text)
}

fn put_settings(text: &mut Vec<u8>, draws: &mut Draws, many: u32) -> Result<(), OutOfMemory>
    requires made { draws.old.made ≡ 200000 }
    requires many { many ≤ 1000000 }
    ensures text { OnOk result (text.new.items ≡ text.old.items ++ lines_of
        (texts.setting_line draws.old.seed) many) }
    ensures seed { draws.new.seed ≡ draws.old.seed }
    ensures made { OnOk result (draws.new.made ≡ 200000 + many) }
{
    for number in 0..many {
        let value = draws.next() % 2;
        put_setting_line(text, number % INPUTS, 10 * (number / INPUTS), value)?;
    }
    Ok(())
}

/// The script; its queries use the draws after those of the settings.
pub fn script_text(alloc: Global, draws: &mut Draws) -> Result<Vec<u8>, OutOfMemory>
    requires { draws.old.made ≡ 360016 }
    ensures text { IfOk result (λ text. text.items ≡ texts.script_text draws.old.seed) }
{
    let mut text = Vec::new(alloc);
    put_queries(&mut text, draws, 16)?;
    Ok(text)
}

fn put_queries(text: &mut Vec<u8>, draws: &mut Draws, many: u32) -> Result<(), OutOfMemory>
    requires made { draws.old.made ≡ 360016 }
    requires many { many ≤ 1000000 }
    ensures { OnOk result (text.new.items ≡ text.old.items ++ lines_of
        (texts.query_line draws.old.seed) many) }
{
    for number in 0..many {
        let place = draws.next() % LAYER;
        let time = 90_000 + draws.next() % 9_900;
        put_query_line(text, number, place, time)?;
    }
    Ok(())
}
