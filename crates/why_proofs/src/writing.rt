//! Writing a proof.

ghost use Rattle.std.specs.Prelude.{◌≡◌, ◌++◌, OnOk, IfOk, flat_map};
ghost use Rattle.why_proofs.specs.Spelling.{last_field, cell_line, proof_lines};

use crate::CellList;
use gate_values::Value;
use std::alloc::{AllocError, Global};
use texts::OutOfMemory;
use texts::fields::push_field;
use valid_intervals::SignalCell;

/// The text of a proof that the signal of this name has this value at this time: its first line, a line for each cell, and `end`.
/// Whether the name is one, and the proof justified, is not asked here. Takes time in proportion to the text.
pub fn proof_text(
    alloc: Global,
    name: &[u8],
    time: u32,
    value: Value,
    cells: &CellList,
) -> Result<Vec<u8>, OutOfMemory>
    ensures { IfOk result (λ text. text.items ≡ proof_lines name.now time value cells.now) }
{
    let mut text = Vec::from_slice(alloc, b"why ")?;
    text.extend_from_slice(name)?;
    push_field(&mut text, time)?;
    push_last(&mut text, value)?;
    push_cells(&mut text, cells)?;
    text.extend_from_slice(b"end\n")?;
    Ok(text)
}

/// Writes the lines of cells at the end of the text.
fn push_cells(text: &mut Vec<u8>, cells: &CellList) -> Result<(), AllocError>
    ensures { OnOk result (text.new.items ≡ text.old.items ++ flat_map cell_line cells.now) }
{
    for cell in cells.as_slice() {
        push_cell(text, cell)?;
    }
    Ok(())
}

/// Writes the line of a cell at the end of the text.
fn push_cell(text: &mut Vec<u8>, stated: &SignalCell) -> Result<(), AllocError>
    ensures { OnOk result (text.new.items ≡ text.old.items ++ cell_line stated.now) }
{
    text.extend_from_slice(b"cell")?;
    push_field(text, stated.signal)?;
    push_field(text, stated.cell.span.start())?;
    push_field(text, stated.cell.span.end())?;
    push_last(text, stated.cell.value)
}

/// Writes a value after a blank, and ends the line.
fn push_last(text: &mut Vec<u8>, value: Value) -> Result<(), AllocError>
    ensures { OnOk result (text.new.items ≡ text.old.items ++ last_field value) }
{
    text.push(b' ')?;
    text.push(value.byte())?;
    text.push(b'\n')?;
    Ok(())
}
