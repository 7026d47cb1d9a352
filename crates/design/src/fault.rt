//! Why a netlist, a timing file and a stimulus file make no design.

ghost use Rattle.std.specs.Prelude.{◌≡◌};
ghost use Rattle.design.specs.Causes.{number_of, out_of_memory};

use std::alloc::{AllocError, AllocFailed};
use texts::OutOfMemory;

/// What is wrong with a row of one of the files.
#[derive(Clone, Copy, Debug, PartialEq, Eq)]
pub enum JoinCause {
    /// Its name is no signal.
    UnknownName,
    /// It states the delay of an input.
    NotGate,
    /// It sets a signal that is no input.
    NotInput,
    /// It states the initial value or the clock of a signal that is no flip-flop.
    NotFlop,
    /// It sets an input after the horizon.
    PastHorizon,
    /// Memory ran out.
    OutOfMemory,
    /// It states the delay of a pin that no gate has.
    NotPin,
    /// It names a clock that no line defines.
    NoClock,
}

impl JoinCause {
    /// The number of the cause. A refusal prints this number plus 10, but never that of `OutOfMemory`.
    pub fn number(self) -> u8
        ensures { result ≡ number_of self }
    {
        match self {
            JoinCause::UnknownName => 1,
            JoinCause::NotGate => 2,
            JoinCause::NotInput => 3,
            JoinCause::NotFlop => 4,
            JoinCause::PastHorizon => 5,
            JoinCause::OutOfMemory => 6,
            JoinCause::NotPin => 8,
            JoinCause::NoClock => 9,
        }
    }
}

/// The file whose row is at fault.
#[derive(Clone, Copy, Debug, PartialEq, Eq)]
pub enum JoinFile {
    Timing,
    Stimulus,
}

/// The first row at fault: its cause, its file and its line. If memory ran out, the file is `Timing` and the line 0.
#[derive(Clone, Copy, Debug, PartialEq, Eq)]
pub struct JoinFault {
    pub cause: JoinCause,
    pub file: JoinFile,
    pub line: u32,
}

impl JoinFault {
    fn out_of_memory() -> JoinFault
        ensures { result ≡ out_of_memory }
    {
        JoinFault {
            cause: JoinCause::OutOfMemory,
            file: JoinFile::Timing,
            line: 0,
        }
    }
}

impl From<AllocError> for JoinFault {
    ghost from_gives = { λ _ fault. fault ≡ out_of_memory };

    fn from(_: AllocError) -> JoinFault {
        JoinFault::out_of_memory()
    }
}

impl<T: Drop> From<AllocFailed<T>> for JoinFault {
    ghost from_gives = { λ _ fault. fault ≡ out_of_memory };

    fn from(_: AllocFailed<T>) -> JoinFault {
        JoinFault::out_of_memory()
    }
}

impl From<OutOfMemory> for JoinFault {
    ghost from_gives = { λ _ fault. fault ≡ out_of_memory };

    fn from(_: OutOfMemory) -> JoinFault {
        JoinFault::out_of_memory()
    }
}
