//! How a call ends.

ghost use Rattle.std.specs.Prelude.{◌≡◌};
ghost use Rattle.backsim_check.specs.Statuses.{number_of};
ghost use Rattle.backsim_check.specs.declared.status.CheckStatus.TheVariants.{OutOfMemory as out_of_memory};

use texts::OutOfMemory;

/// How a call ended.
#[derive(Clone, Copy, Debug, PartialEq, Eq)]
pub enum CheckStatus {
    /// The proof is justified: its claim holds.
    Yes,
    /// There are not four words.
    Words,
    /// A file of the circuit is refused, or the proof is too long.
    Refused,
    /// A read of a file failed.
    ReadFault,
    /// The line could not be written.
    WriteFault,
    /// A file could not be opened.
    FileFault,
    OutOfMemory,
    /// The proof is not justified, or the text is no proof.
    No,
}

impl CheckStatus {
    /// The exit status of the process.
    pub fn number(self) -> u8
        ensures { result ≡ number_of self }
    {
        match self {
            CheckStatus::Yes => 0,
            CheckStatus::Words => 1,
            CheckStatus::Refused => 2,
            CheckStatus::ReadFault => 3,
            CheckStatus::WriteFault => 4,
            CheckStatus::FileFault => 5,
            CheckStatus::OutOfMemory => 6,
            CheckStatus::No => 7,
        }
    }
}

impl From<OutOfMemory> for CheckStatus {
    ghost from_gives = { λ _ status. status ≡ out_of_memory };

    fn from(_: OutOfMemory) -> CheckStatus {
        CheckStatus::OutOfMemory
    }
}
