//! Reading a proof. Each function reads what stands at the front of the bytes, and gives the bytes after it.

ghost use Rattle.std.specs.Prelude.{◌≡◌, length, position, IfOk};
ghost use Rattle.texts.specs.fields.Reading.{read_is};
ghost use Rattle.why_proofs.specs.inner.Reading.{words_are, claim_is, last_field_at, name_at, claim_at, cell_at, cells_at, is_space};

use crate::cells::CellLine;
use gate_values::Value;
use std::alloc::Global;
use texts::fields::{after, field_of, value_of};
use texts::{OutOfMemory, is_name};

/// The first line of a proof: its name, time and value, and what comes after the line.
#[tactic(auto, unfolding(crate::specs::inner::Reading::claim_at))]
pub fn claim_of(text: &[u8]) -> Option<(&[u8], u32, Value, &[u8])>
    ensures { claim_is result ≡ claim_at text.now }
{
    let rest = after(text, b"why ")?;
    let (name, rest) = name_of(rest)?;
    let (time, rest) = field_of(rest)?;
    let (value, rest) = last_of(rest)?;
    Some((name, time, value, rest))
}

/// The cell lines up to the first line that is none.
pub fn cells_of(alloc: Global, text: &[u8]) -> Result<(Vec<CellLine>, &[u8]), OutOfMemory>
    ensures { IfOk result (λ read. (read.0.items, read.1.now) ≡ cells_at (length text.now)
        text.now) }
{
    let mut cells = Vec::new(alloc);
    let mut rest = text;
    while let Some((cell, more)) = cell_of(rest) {
        cells.push(cell)?;
        rest = more;
    }
    Ok((cells, rest))
}

#[tactic(auto, unfolding(crate::specs::inner::Reading::cell_at))]
fn cell_of(text: &[u8]) -> Option<(CellLine, &[u8])>
    ensures { read_is result ≡ cell_at text.now }
{
    let rest = after(text, b"cell")?;
    let (signal, rest) = field_of(rest)?;
    let (start, rest) = field_of(rest)?;
    let (end, rest) = field_of(rest)?;
    let (value, rest) = last_of(rest)?;
    Some((CellLine::new(signal, start, end, value), rest))
}

/// Where the first blank stands.
fn space_at(text: &[u8]) -> Option<usize>
    ensures { result ≡ position is_space text.now }
{
    text.iter().position(|byte| *byte == b' ')
}

/// The bytes up to the first blank, which are a name.
#[tactic(auto, unfolding(crate::specs::inner::Reading::name_at))]
fn name_of(text: &[u8]) -> Option<(&[u8], &[u8])>
    ensures { words_are result ≡ name_at text.now }
{
    let end = space_at(text)?;
    let (name, rest) = text.split_at(end);
    if is_name(name) {
        Some((name, rest))
    } else {
        None
    }
}

/// A blank, a value and the end of the line.
#[tactic(auto, unfolding(crate::specs::inner::Reading::last_field_at))]
fn last_of(text: &[u8]) -> Option<(Value, &[u8])>
    ensures { read_is result ≡ last_field_at text.now }
{
    let rest = after(text, b" ")?;
    let (value, rest) = value_of(rest)?;
    let rest = after(rest, b"\n")?;
    Some((value, rest))
}
