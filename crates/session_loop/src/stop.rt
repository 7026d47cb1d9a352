//! Why a session stops before its script's end, by what was served then.

ghost use Rattle.std.specs.Prelude.{◌≡◌};
ghost use Rattle.session_loop.specs.Stops.{of_replies, of_journal, of_dump};
ghost use Rattle.session_loop.specs.declared.stop.RepliesStop.TheVariants as replies;
ghost use Rattle.session_loop.specs.declared.stop.JournalStop.TheVariants as journal;
ghost use Rattle.session_loop.specs.declared.stop.UnitStop.TheVariants as unit;
ghost use Rattle.session_loop.specs.declared.stop.ScriptStop.TheVariants as script;

use std::alloc::AllocError;
use texts::OutOfMemory;

/// Why replies are not written.
#[derive(Clone, Copy, Debug, PartialEq, Eq)]
pub enum RepliesStop {
    /// A write failed.
    Unwritten,
    OutOfMemory,
}

/// Why the head or a section of a journal is not written.
#[derive(Clone, Copy, Debug, PartialEq, Eq)]
pub enum JournalStop {
    /// A write failed.
    Unwritten,
    OutOfMemory,
}

/// Why the file of a dump is not made.
#[derive(Clone, Copy, Debug, PartialEq, Eq)]
pub enum DumpStop {
    /// It couldn't be created.
    Unmade,
    /// A write failed.
    Unwritten,
    /// It couldn't be finished.
    Unfinished,
}

/// Why a unit is not served.
#[derive(Clone, Copy, Debug, PartialEq, Eq)]
pub enum UnitStop {
    /// A write of a reply failed.
    RepliesUnwritten,
    /// A write to the journal failed.
    JournalUnwritten,
    /// The file of a dump couldn't be created.
    DumpUnmade,
    /// A write to a dump failed.
    DumpUnwritten,
    /// A dump couldn't be finished.
    DumpUnfinished,
    /// There is no memory, or a count is too great for its type.
    OutOfMemory,
}

/// Why a script is not served to its end.
#[derive(Clone, Copy, Debug, PartialEq, Eq)]
pub enum ScriptStop {
    /// A read of it failed.
    Unread,
    /// It has more than 16,777,216 bytes.
    TooLong,
    /// A unit of it is not served.
    Unit(UnitStop),
}

impl From<OutOfMemory> for RepliesStop {
    ghost from_gives = { λ _ stop. stop ≡ replies.OutOfMemory };

    fn from(_: OutOfMemory) -> RepliesStop {
        RepliesStop::OutOfMemory
    }
}

impl From<AllocError> for RepliesStop {
    ghost from_gives = { λ _ stop. stop ≡ replies.OutOfMemory };

    fn from(_: AllocError) -> RepliesStop {
        RepliesStop::OutOfMemory
    }
}

impl From<OutOfMemory> for JournalStop {
    ghost from_gives = { λ _ stop. stop ≡ journal.OutOfMemory };

    fn from(_: OutOfMemory) -> JournalStop {
        JournalStop::OutOfMemory
    }
}

impl From<AllocError> for JournalStop {
    ghost from_gives = { λ _ stop. stop ≡ journal.OutOfMemory };

    fn from(_: AllocError) -> JournalStop {
        JournalStop::OutOfMemory
    }
}

impl From<OutOfMemory> for UnitStop {
    ghost from_gives = { λ _ stop. stop ≡ unit.OutOfMemory };

    fn from(_: OutOfMemory) -> UnitStop {
        UnitStop::OutOfMemory
    }
}

impl From<RepliesStop> for UnitStop {
    ghost from_gives = { λ given stop. stop ≡ of_replies given };

    fn from(given: RepliesStop) -> UnitStop {
        match given {
            RepliesStop::Unwritten => UnitStop::RepliesUnwritten,
            RepliesStop::OutOfMemory => UnitStop::OutOfMemory,
        }
    }
}

impl From<JournalStop> for UnitStop {
    ghost from_gives = { λ given stop. stop ≡ of_journal given };

    fn from(given: JournalStop) -> UnitStop {
        match given {
            JournalStop::Unwritten => UnitStop::JournalUnwritten,
            JournalStop::OutOfMemory => UnitStop::OutOfMemory,
        }
    }
}

impl From<DumpStop> for UnitStop {
    ghost from_gives = { λ given stop. stop ≡ of_dump given };

    fn from(given: DumpStop) -> UnitStop {
        match given {
            DumpStop::Unmade => UnitStop::DumpUnmade,
            DumpStop::Unwritten => UnitStop::DumpUnwritten,
            DumpStop::Unfinished => UnitStop::DumpUnfinished,
        }
    }
}

impl From<UnitStop> for ScriptStop {
    ghost from_gives = { λ unit stop. stop ≡ script.Unit unit };

    fn from(unit: UnitStop) -> ScriptStop {
        ScriptStop::Unit(unit)
    }
}
