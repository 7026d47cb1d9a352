//! The dump of the waves in the replies to a batch.

ghost use Rattle.std.specs.Prelude.{◌≡◌, length, IsTrue, IfOk, OnOk, ◌++◌};
ghost use Rattle.std.specs.List.{list_all};
ghost use Rattle.query_lines.specs.Fit.{AsksByName};
ghost use Rattle.query_lines.specs.Units.{asked_window};
ghost use Rattle.session_meaning.specs.Dumps.{item_wire, wires_of};
ghost use Rattle.session_meaning.specs.Verdicts.{verdict_of};
ghost use Rattle.unit_answers.specs.Dumps.{IsOwnWave, AreReplied};
ghost use Rattle.vcd_answers.specs.Dumps.{vcd_of};
ghost use Rattle.vcd_answers.specs.Wires.{is_wire};

use design::Design;
use query_lines::{Item, What};
use reply_lines::{Outcome, Reply};
use std::alloc::Global;
use texts::OutOfMemory;
use vcd_answers::{Wire, WireList, vcd_text, wire_of};

/// The text of a dump, and the number of its wires.
#[derive(Drop)]
pub struct Dump {
    pub text: Vec<u8>,
    pub wires: u32,
}

/// Adds the wire of the reply to an item, if it is a wave.
fn push_wire(
    alloc: Global,
    design: &Design,
    item: &Item,
    reply: &Reply,
    wires: &mut Vec<Wire>,
) -> Result<(), OutOfMemory>
    requires named { AsksByName item.now.what }
    requires wave { IsOwnWave design.now.circuit (verdict_of design.now item.now) reply.now }
    ensures wire { OnOk result (wires.new.items ≡ wires.old.items
        ++ item_wire design.now item.now.line (asked_window item.now.what) reply.now) }
    ensures sound { IsTrue (list_all is_wire wires.old.items)
        → OnOk result (IsTrue (list_all is_wire wires.new.items)) }
{
    let horizon = design.horizon();
    let Reply::Window(Outcome::Answer(runs)) = reply else {
        return Ok(());
    };
    let What::Window(window, _) = &item.what else {
        return Ok(());
    };
    let name = window.name.bytes();
    wires.push(wire_of(alloc, name, window.from, window.to, runs, horizon)?)?;
    Ok(())
}

/// The dump of the waves in the replies to the items of a batch: a wire for each, in the order of the items.
pub fn dump_waves(
    alloc: Global,
    design: &Design,
    items: &[Item],
    replies: &[Reply],
) -> Result<Dump, OutOfMemory>
    requires { AreReplied design.now items.now replies.now }
    ensures text { IfOk result (λ dump. dump.text.items ≡ vcd_of
        (wires_of design.now items.now replies.now)) }
    ensures wires { IfOk result (λ dump. dump.wires ≡ length
        (wires_of design.now items.now replies.now)) }
{
    let mut wires = Vec::new(alloc);
    for i in 0..items.len() {
        push_wire(alloc, design, &items[i], &replies[i], &mut wires)?;
    }
    let count = wires.len() as u32;
    let text = vcd_text(alloc, &WireList::from_vec(wires))?;
    Ok(Dump { text, wires: count })
}
