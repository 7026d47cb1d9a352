//! Why a netlist is refused.

ghost use Rattle.std.specs.Prelude.{◌≡◌};
ghost use Rattle.bench_reader.specs.Causes.{cause_number};
ghost use Rattle.bench_reader.specs.declared.fault.BenchCause.TheVariants.{OutOfMemory};

use texts::line_faults::{LineCause, LineFault};

/// What is wrong with a netlist.
#[derive(Clone, Copy, Debug, PartialEq, Eq)]
pub enum BenchCause {
    /// The line has none of the forms.
    Syntax,
    /// The line has the form of a gate, and its kind is none of the nine.
    UnknownKind,
    /// A gate without pins, with more than 64, or with more than one where its kind takes one.
    PinCount,
    /// The line defines a signal that an earlier line defined, and not both are INPUT lines.
    Twice,
    /// A name that is used as pin or output is defined nowhere.
    Undefined,
    /// A name has more than 255 bytes.
    NameLong,
    /// More than 1,048,576 names or 4,194,304 pins.
    TooMany,
    /// No memory was left.
    OutOfMemory,
}

impl BenchCause {
    /// The number by which a refusal names the cause, from 1 to 7. That of `OutOfMemory` is 8, and is
    /// never printed.
    pub fn number(self) -> u32
        ensures { result ≡ cause_number self }
    {
        match self {
            BenchCause::Syntax => 1,
            BenchCause::UnknownKind => 2,
            BenchCause::PinCount => 3,
            BenchCause::Twice => 4,
            BenchCause::Undefined => 5,
            BenchCause::NameLong => 6,
            BenchCause::TooMany => 7,
            BenchCause::OutOfMemory => 8,
        }
    }
}

impl LineCause for BenchCause {
    ghost memory = { OutOfMemory };

    fn out_of_memory() -> BenchCause {
        BenchCause::OutOfMemory
    }
}

/// A netlist's first fault.
pub type BenchFault = LineFault<BenchCause>;
