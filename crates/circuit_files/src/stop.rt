//! Why three files make no design.

ghost use Rattle.std.specs.Prelude.{◌≡◌};
ghost use Rattle.circuit_files.specs.Files.{refused_netlist, refused_timing, refused_stimulus, refused_join};
ghost use Rattle.circuit_files.specs.Stops.{IsQuiet, IsStopOf};
ghost use Rattle.bench_reader.specs.Netlists as netlist;
ghost use Rattle.timing_file.specs.Causes as timing;
ghost use Rattle.stimulus_file.specs.Causes as stimulus;
ghost use Rattle.design.specs.Causes as join;

use crate::refusal::{CircuitFile, FileRefusal};
use bench_reader::{BenchCause, BenchFault};
use design::{JoinCause, JoinFault, JoinFile};
use stimulus_file::{StimulusCause, StimulusFault};
use timing_file::{TimingCause, TimingFault};

/// Why the files were not read, or not joined.
#[derive(Clone, Copy, Debug, PartialEq, Eq)]
pub enum FilesStop {
    /// A file is too long or has a line at fault, or a row does not join.
    Refused(FileRefusal),
    /// The file could not be opened: the count of file faults rose.
    NotOpened(CircuitFile),
    /// A read of the file failed: the count of read faults rose.
    Unread(CircuitFile),
    OutOfMemory,
}

/// The refusal of a line of a file.
fn refusal_at(file: CircuitFile, line: u32, cause: u32) -> FilesStop
    ensures quiet { IsQuiet result }
    ensures stop { result ≡ FilesStop.Refused (FileRefusal.Line file line cause) }
{
    FilesStop::Refused(FileRefusal::Line { file, line, cause })
}

impl From<BenchFault> for FilesStop {
    ghost from_gives = { λ fault stop. IsStopOf (refused_netlist fault) (fault ≡ netlist.out_of_memory) stop };

    fn from(fault: BenchFault) -> FilesStop {
        match fault.cause {
            BenchCause::OutOfMemory => FilesStop::OutOfMemory,
            cause => refusal_at(CircuitFile::Netlist, fault.line, cause.number()),
        }
    }
}

impl From<TimingFault> for FilesStop {
    ghost from_gives = { λ fault stop. IsStopOf (refused_timing fault) (fault ≡ timing.out_of_memory) stop };

    fn from(fault: TimingFault) -> FilesStop {
        match fault.cause {
            TimingCause::OutOfMemory => FilesStop::OutOfMemory,
            cause => refusal_at(CircuitFile::Timing, fault.line, cause.number() as u32),
        }
    }
}

impl From<StimulusFault> for FilesStop {
    ghost from_gives = { λ fault stop. IsStopOf (refused_stimulus fault) (fault ≡ stimulus.out_of_memory) stop };

    fn from(fault: StimulusFault) -> FilesStop {
        match fault.cause {
            StimulusCause::OutOfMemory => FilesStop::OutOfMemory,
            cause => refusal_at(CircuitFile::Stimulus, fault.line, cause.number() as u32),
        }
    }
}

/// The causes of the join are numbered from 11 on, after those of the readers.
impl From<JoinFault> for FilesStop {
    ghost from_gives = { λ fault stop. IsStopOf (refused_join fault) (fault ≡ join.out_of_memory) stop };

    fn from(fault: JoinFault) -> FilesStop {
        let file = match fault.file {
            JoinFile::Timing => CircuitFile::Timing,
            JoinFile::Stimulus => CircuitFile::Stimulus,
        };
        match fault.cause {
            JoinCause::OutOfMemory => FilesStop::OutOfMemory,
            cause => refusal_at(file, fault.line, cause.number() as u32 + 10),
        }
    }
}
