//! Reading the four files.

ghost use Rattle.std.specs.Prelude.{◌≡◌, IfOk};
ghost use Rattle.backsim_io.specs.FilesInMemory.{SameMade};
ghost use Rattle.backsim_check.specs.Given.{names_of};
ghost use Rattle.backsim_check.specs.inner.Judged.{stop_of, proof_stop, line_of, ReadsAll};

use crate::lines::TOO_LONG;
use backsim_io::{Files, ReadFile, read_file};
use circuit_files::{FileRefusal, FilesStop, read_design};
use design::Design;
use std::alloc::Global;
use texts::OutOfMemory;

const PROOF_LIMIT: u32 = 268_435_456;

/// A refusal of a file or of the proof.
#[derive(Clone, Copy, Debug, PartialEq, Eq)]
pub enum Refusal {
    OfFiles(FileRefusal),
    ProofTooLong,
}

impl Refusal {
    /// The line that reports the refusal.
    pub fn line(self, alloc: Global) -> Result<Vec<u8>, OutOfMemory>
        ensures { IfOk result (λ line. line.items ≡ line_of self) }
    {
        match self {
            Refusal::OfFiles(refusal) => Ok(refusal.text(alloc)?.into_bytes()),
            Refusal::ProofTooLong => Ok(Vec::from_slice(alloc, TOO_LONG)?),
        }
    }
}

/// Why a proof is not judged.
#[derive(Clone, Copy, Debug, PartialEq, Eq)]
pub enum CheckStop {
    Refused(Refusal),
    NotOpened,
    Unread,
    OutOfMemory,
}

impl From<FilesStop> for CheckStop {
    ghost from_gives = { λ given stop. stop ≡ stop_of given };

    fn from(given: FilesStop) -> CheckStop {
        match given {
            FilesStop::Refused(refusal) => CheckStop::Refused(Refusal::OfFiles(refusal)),
            FilesStop::NotOpened(_) => CheckStop::NotOpened,
            FilesStop::Unread(_) => CheckStop::Unread,
            FilesStop::OutOfMemory => CheckStop::OutOfMemory,
        }
    }
}

impl From<ReadFile> for CheckStop {
    ghost from_gives = { λ given stop. stop ≡ proof_stop given };

    fn from(given: ReadFile) -> CheckStop {
        match given {
            ReadFile::NotOpened => CheckStop::NotOpened,
            ReadFile::Failed => CheckStop::Unread,
            ReadFile::TooLong => CheckStop::Refused(Refusal::ProofTooLong),
            ReadFile::OutOfMemory => CheckStop::OutOfMemory,
        }
    }
}

/// The design of the three files, and the bytes of the proof.
#[derive(Drop)]
pub struct Inputs {
    pub design: Design,
    pub text: Vec<u8>,
}

/// Reads the three files, and then the proof.
pub fn read_all<F: Files>(
    alloc: Global,
    netlist: &str,
    timing: &str,
    stimulus: &str,
    proof: &str,
    files: &mut F,
) -> Result<Inputs, CheckStop>
    requires { (F.state files.old).started ≡ 0 }
    ensures reads { ReadsAll (names_of netlist.now timing.now stimulus.now proof.now)
        (F.state files.old) (F.state files.new) result }
    ensures made { SameMade (F.made files.old) (F.made files.new) }
{
    let design = read_design(alloc, netlist, timing, stimulus, files)?;
    let text = read_file(alloc, files, proof, PROOF_LIMIT)?;
    Ok(Inputs { design, text })
}
