//! Why a file is refused, and at which line.

ghost use Rattle.std.specs.Prelude.{◌≡◌, Err};
ghost use Rattle.texts.specs.line_faults.Faults.{at_line, at_no_line};

use crate::OutOfMemory;
use std::alloc::{AllocError, AllocFailed};

/// The causes of a file's lines. One of them says that memory ran out.
pub trait LineCause: Sized {
    ghost memory: { Self };

    /// Memory ran out.
    fn out_of_memory() -> Self
        ensures { result ≡ memory };
}

/// The first line at fault. Lines are numbered from 1; a fault of no line, as
/// where memory ran out, has the line 0.
#[derive(Clone, Copy, Debug, PartialEq, Eq)]
pub struct LineFault<C> {
    pub cause: C,
    pub line: u32,
}

/// The refusal of a line.
pub fn fault<C>(cause: C, line: u32) -> Result<(), LineFault<C>>
    ensures { result ≡ Err (at_line line cause) }
{
    Err(LineFault { cause, line })
}

impl<C: LineCause> LineFault<C> {
    fn out_of_memory() -> LineFault<C>
        ensures { result ≡ at_no_line C.memory }
    {
        LineFault {
            cause: C::out_of_memory(),
            line: 0,
        }
    }
}

impl<C: LineCause> From<AllocError> for LineFault<C> {
    ghost from_gives = { λ _ fault. fault ≡ at_no_line C.memory };

    fn from(_: AllocError) -> LineFault<C> {
        LineFault::out_of_memory()
    }
}

impl<C: LineCause, T: Drop> From<AllocFailed<T>> for LineFault<C> {
    ghost from_gives = { λ _ fault. fault ≡ at_no_line C.memory };

    fn from(_: AllocFailed<T>) -> LineFault<C> {
        LineFault::out_of_memory()
    }
}

impl<C: LineCause> From<OutOfMemory> for LineFault<C> {
    ghost from_gives = { λ _ fault. fault ≡ at_no_line C.memory };

    fn from(_: OutOfMemory) -> LineFault<C> {
        LineFault::out_of_memory()
    }
}
