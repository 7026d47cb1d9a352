//! Checking a proof.

ghost use Rattle.std.specs.Prelude.{◌≡◌, ◌≤◌, length, IfOk};
ghost use Rattle.valid_intervals.specs.declared.SignalCell.{SignalCell};
ghost use Rattle.why_proofs.specs.Spelling.{Proof};
ghost use Rattle.why_proofs.specs.Verdicts.{RightYes, RightNo, RightBad, IsTrueYes};
ghost use Rattle.why_proofs.specs.inner.Judged.{IsJudged};

use crate::cells::CellLine;
use crate::known::KnownCells;
use crate::reading::{cells_of, claim_of};
use design::Design;
use gate_values::Value;
use std::alloc::Global;
use texts::OutOfMemory;
use texts::fields::after;

/// What a checker answers of a text. Lines are counted from 1.
#[derive(Clone, Copy, Debug, PartialEq, Eq)]
pub enum Checked {
    /// It is a justified proof: the signal with this number has this value at this time.
    Yes {
        signal: u32,
        time: u32,
        value: Value,
    },
    /// It is a proof, and this is its first cell line that the lines above it do not justify; line 1 where all are justified, but
    /// what the first line claims does not follow.
    No {
        line: u32,
    },
    /// It is no proof, and this is the first line at which no proof's text goes on.
    Bad {
        line: u32,
    },
}

/// Whether a text is a justified proof. It takes time in O(n log n) for n bytes of text, and memory in proportion to them.
pub fn check_proof(alloc: Global, design: &Design, text: &[u8]) -> Result<Checked, OutOfMemory>
    requires { length text.now ≤ 268435456 }
    // Whoever wrote the text: what is claimed holds in forward simulation.
    ensures sound { IfOk result (IsTrueYes design.now) }
    ensures yes { IfOk result (RightYes design.now text.now) }
    ensures no { IfOk result (RightNo design.now text.now) }
    ensures bad { IfOk result (RightBad text.now) }
{
    design.facts();
    let Some((name, time, value, rest)) = claim_of(text) else {
        return Ok(Checked::Bad { line: 1 });
    };
    let (cells, rest) = cells_of(alloc, rest)?;
    let line = cells.len() as u32 + 2;
    let Some(behind) = after(rest, b"end\n") else {
        return Ok(Checked::Bad { line });
    };
    if !behind.is_empty() {
        return Ok(Checked::Bad { line: line + 1 });
    }
    check_cells(alloc, design, name, time, value, &cells)
}

/// Whether a proof with these cell lines is justified.
fn check_cells(
    alloc: Global,
    design: &Design,
    name: &[u8],
    time: u32,
    value: Value,
    cells: &[CellLine],
) -> Result<Checked, OutOfMemory>
    requires { length cells.now ≤ 268435456 }
    ensures { let p : Proof = record {
      name = name.now;
      time = time;
      value = value;
      cells =
          cells.now;
    } in IfOk result (IsJudged design.now p) }
{
    let mut known = KnownCells::new(alloc);
    for (place, line) in cells.iter().enumerate() {
        if !known.accept(design, line)? {
            return Ok(Checked::No {
                line: place as u32 + 2,
            });
        }
    }
    match known.claimed(design, name, time, value) {
        Some(signal) => Ok(Checked::Yes {
            signal,
            time,
            value,
        }),
        None => Ok(Checked::No { line: 1 }),
    }
}
