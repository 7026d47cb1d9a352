//! What is refused of a file, and the line that reports it.

ghost use Rattle.std.specs.Prelude.{◌≡◌, IfOk, string_bytes};
ghost use Rattle.circuit_files.specs.Texts.{name_of, refusal_text};

use std::alloc::{AllocError, Global};

/// One of the three files of a circuit.
#[derive(Clone, Copy, Debug, PartialEq, Eq)]
pub enum CircuitFile {
    Netlist,
    Timing,
    Stimulus,
}

impl CircuitFile {
    /// The name of the file in messages.
    pub fn name(self) -> &'static str
        ensures { result.now ≡ name_of self }
    {
        match self {
            CircuitFile::Netlist => "netlist",
            CircuitFile::Timing => "timing",
            CircuitFile::Stimulus => "stimulus",
        }
    }
}

/// A refusal and its cause.
#[derive(Clone, Copy, Debug, PartialEq, Eq)]
pub enum FileRefusal {
    /// The file has more bytes than its limit.
    TooLong(CircuitFile),
    /// A line, counted from 1, and the number of its cause. The line is 0 if the file ends too early.
    Line {
        file: CircuitFile,
        line: u32,
        cause: u32,
    },
}

impl FileRefusal {
    /// The line that reports the refusal.
    pub fn text(&self, alloc: Global) -> Result<String, AllocError>
        ensures { IfOk result (λ text. string_bytes text ≡ refusal_text self.now) }
    {
        match *self {
            FileRefusal::TooLong(file) => {
                let name = file.name();
                format!(in alloc; "refused {name} too long\n")
            }
            FileRefusal::Line { file, line, cause } => {
                let name = file.name();
                format!(in alloc; "refused {name} line {line} cause {cause}\n")
            }
        }
    }
}
