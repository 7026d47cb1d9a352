//! Why a session halts, by what stands of its journal.

ghost use Rattle.std.specs.Prelude.{◌≡◌};
ghost use Rattle.session_loop.specs.Stops.{of_begin};
ghost use Rattle.session_loop.specs.declared.halt.JournalHalt.TheVariants as journal;
ghost use Rattle.session_loop.specs.declared.halt.Halt.TheVariants.{Unbegun, Stopped, JournalUnfinished};
ghost use Rattle.session_loop.specs.declared.stop.JournalStop.TheVariants.{OutOfMemory as out_of_memory};

use crate::stop::{JournalStop, ScriptStop};
use texts::OutOfMemory;

/// A journal couldn't be finished.
#[derive(Clone, Copy, Debug, PartialEq, Eq)]
pub struct Unfinished;

/// Why a journal is not begun, or not written: all that a session without a script can halt for.
#[derive(Clone, Copy, Debug, PartialEq, Eq)]
pub enum JournalHalt {
    /// It couldn't be created. Nothing was written.
    Unmade,
    /// The session stopped after it was created.
    Stopped(JournalStop),
}

/// Why a session halts.
#[derive(Clone, Copy, Debug, PartialEq, Eq)]
pub enum Halt {
    /// The journal couldn't be created. Nothing was read and nothing written.
    JournalUnmade,
    /// The session stopped before its script was read: the head of the journal is not written, or there is no memory.
    Unbegun(JournalStop),
    /// It stopped within its script.
    Stopped(ScriptStop),
    /// All was written, and the journal couldn't be finished.
    JournalUnfinished,
}

impl From<JournalStop> for JournalHalt {
    ghost from_gives = { λ stop halt. halt ≡ journal.Stopped stop };

    fn from(stop: JournalStop) -> JournalHalt {
        JournalHalt::Stopped(stop)
    }
}

impl From<OutOfMemory> for JournalHalt {
    ghost from_gives = { λ _ halt. halt ≡ journal.Stopped out_of_memory };

    fn from(_: OutOfMemory) -> JournalHalt {
        JournalHalt::Stopped(JournalStop::OutOfMemory)
    }
}

impl From<JournalHalt> for Halt {
    ghost from_gives = { λ given halt. halt ≡ of_begin given };

    fn from(given: JournalHalt) -> Halt {
        match given {
            JournalHalt::Unmade => Halt::JournalUnmade,
            JournalHalt::Stopped(stop) => Halt::Unbegun(stop),
        }
    }
}

impl From<OutOfMemory> for Halt {
    ghost from_gives = { λ _ halt. halt ≡ Unbegun out_of_memory };

    fn from(_: OutOfMemory) -> Halt {
        Halt::Unbegun(JournalStop::OutOfMemory)
    }
}

impl From<ScriptStop> for Halt {
    ghost from_gives = { λ stop halt. halt ≡ Stopped stop };

    fn from(stop: ScriptStop) -> Halt {
        Halt::Stopped(stop)
    }
}

impl From<Unfinished> for Halt {
    ghost from_gives = { λ _ halt. halt ≡ JournalUnfinished };

    fn from(_: Unfinished) -> Halt {
        Halt::JournalUnfinished
    }
}
