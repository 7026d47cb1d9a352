//! Reading the lines one after another.

ghost use Rattle.std.specs.Prelude.{◌≤◌, ℕ, List, [], Option, length, map};
ghost use Rattle.texts.specs.Text.{lines};
ghost use Rattle.texts.specs.line_faults.Reading.{IsNext, ReadsLines, TakesLine};

use crate::line_faults::causes::{LineCause, LineFault};
use crate::next_line;
use std::alloc::Global;

/// What is known of a file after some of its lines.
pub trait LineReader<'a>: Drop + Sized {
    /// Why a line is refused.
    type Cause: LineCause;

    /// A line by its form.
    ghost Line: { Type 0 };

    /// The form that the bytes of a line have.
    ghost line_of: { List ℕ → Line };

    /// The cause of a line after the lines before it, if it is at fault.
    ghost cause_of: { List Line → Line → Option Self.Cause };

    /// The reader has read these lines, none of which is at fault.
    ghost has_read: { List Line → Self → Type 0 };

    /// Takes the line with this number.
    fn take(
        &mut self,
        alloc: Global,
        number: u32,
        line: &'a [u8],
    ) -> Result<(), LineFault<Self::Cause>>
        requires { IsNext has_read self.old number }
        ensures { TakesLine Self.Cause.memory cause_of has_read self.old self.new number
            (line_of line.entry.now) result };
}

/// Has a reader that has read no line take those of a text, up to the first at
/// fault.
pub fn read_lines<'a, R: LineReader<'a>>(
    alloc: Global,
    reader: R,
    text: &'a [u8],
) -> Result<R, LineFault<R::Cause>>
    requires none { R.has_read [] reader }
    requires limit { length text.now ≤ 67108864 }
    ensures { ReadsLines R.Cause.memory R.cause_of R.has_read
        (map R.line_of (lines text.entry.now)) result }
{
    let mut reader = reader;
    let mut rest = text;
    let mut number: u32 = 0;
    while !rest.is_empty() {
        let (line, later) = next_line(rest);
        number += 1;
        reader.take(alloc, number, line)?;
        rest = later;
    }
    Ok(reader)
}
