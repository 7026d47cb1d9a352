//! How a session ended.

ghost use Rattle.std.specs.Prelude.{◌≡◌};
ghost use Rattle.backsim.specs.inner.Statuses.{number_of, of_journal, of_unit, of_work};
ghost use Rattle.backsim.specs.Texts.{input_name, output_name, file_name};

use circuit_files::CircuitFile;
use session_loop::{JournalHalt, JournalStop, UnitStop};

/// What a read failed of.
#[derive(Clone, Copy, Debug, PartialEq, Eq)]
pub enum Input {
    Circuit(CircuitFile),
    Script,
}

impl Input {
    /// Its name in what the program prints.
    pub fn name(self) -> &'static str
        ensures { result.now ≡ input_name self }
    {
        match self {
            Input::Circuit(file) => file.name(),
            Input::Script => "script",
        }
    }
}

/// What a write failed of.
#[derive(Clone, Copy, Debug, PartialEq, Eq)]
pub enum Output {
    Replies,
    Journal,
    /// A dump of waves.
    Vcd,
}

impl Output {
    /// Its name in what the program prints.
    pub fn name(self) -> &'static str
        ensures { result.now ≡ output_name self }
    {
        match self {
            Output::Replies => "replies",
            Output::Journal => "journal",
            Output::Vcd => "vcd",
        }
    }
}

/// Which file couldn't be opened, created or finished.
#[derive(Clone, Copy, Debug, PartialEq, Eq)]
pub enum NamedFile {
    Circuit(CircuitFile),
    Journal,
    /// A dump of waves.
    Vcd,
}

impl NamedFile {
    /// Its name in what the program prints.
    pub fn name(self) -> &'static str
        ensures { result.now ≡ file_name self }
    {
        match self {
            NamedFile::Circuit(file) => file.name(),
            NamedFile::Journal => "journal",
            NamedFile::Vcd => "vcd",
        }
    }
}

/// How a session ended.
#[derive(Clone, Copy, Debug, PartialEq, Eq)]
pub enum Status {
    /// The script was read to its end, and each of its units was served.
    Ended,
    /// The words are not those of the command.
    Words,
    /// A file or the script was refused.
    Refused,
    ReadFault(Input),
    WriteFault(Output),
    FileFault(NamedFile),
    OutOfMemory,
}

impl Status {
    /// The exit status of the process.
    pub fn number(self) -> u8
        ensures { result ≡ number_of self }
    {
        match self {
            Status::Ended => 0,
            Status::Words => 1,
            Status::Refused => 2,
            Status::ReadFault(_) => 3,
            Status::WriteFault(_) => 4,
            Status::FileFault(_) => 5,
            Status::OutOfMemory => 6,
        }
    }
}

impl From<JournalStop> for Status {
    ghost from_gives = { λ stop status. status ≡ of_journal stop };

    fn from(stop: JournalStop) -> Status {
        match stop {
            JournalStop::Unwritten => Status::WriteFault(Output::Journal),
            JournalStop::OutOfMemory => Status::OutOfMemory,
        }
    }
}

impl From<UnitStop> for Status {
    ghost from_gives = { λ stop status. status ≡ of_unit stop };

    fn from(stop: UnitStop) -> Status {
        match stop {
            UnitStop::RepliesUnwritten => Status::WriteFault(Output::Replies),
            UnitStop::JournalUnwritten => Status::WriteFault(Output::Journal),
            UnitStop::DumpUnwritten => Status::WriteFault(Output::Vcd),
            UnitStop::DumpUnmade | UnitStop::DumpUnfinished => Status::FileFault(NamedFile::Vcd),
            UnitStop::OutOfMemory => Status::OutOfMemory,
        }
    }
}

impl From<JournalHalt> for Status {
    ghost from_gives = { λ halt status. status ≡ of_work halt };

    fn from(halt: JournalHalt) -> Status {
        match halt {
            JournalHalt::Unmade => Status::FileFault(NamedFile::Journal),
            JournalHalt::Stopped(stop) => Status::from(stop),
        }
    }
}
