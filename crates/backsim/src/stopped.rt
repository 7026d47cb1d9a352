//! How a session ends that stopped: a refusal by its line, and all else by the status alone.

ghost use Rattle.backsim.specs.inner.Stops.{EndsByFiles, EndsByHalt};

use crate::line::{TOO_LONG, tell};
use crate::status::{Input, NamedFile, Status};
use backsim_io::Sink;
use circuit_files::FilesStop;
use session_loop::{Halt, ScriptStop};
use std::alloc::Global;

/// Ends a session whose three files make no design.
pub fn end_files<S: Sink>(alloc: Global, stop: FilesStop, out: &mut S) -> Status
    ensures { EndsByFiles stop
        (S.faults out.old) (S.written out.old) (S.faults out.new) (S.written out.new) result }
{
    match stop {
        FilesStop::Refused(refusal) => match refusal.text(alloc) {
            Ok(text) => tell(text.as_bytes(), Status::Refused, out),
            Err(_) => Status::OutOfMemory,
        },
        FilesStop::NotOpened(file) => Status::FileFault(NamedFile::Circuit(file)),
        FilesStop::Unread(file) => Status::ReadFault(Input::Circuit(file)),
        FilesStop::OutOfMemory => Status::OutOfMemory,
    }
}

/// Ends a session that halted.
pub fn end_halted<S: Sink>(halt: Halt, out: &mut S) -> Status
    ensures { EndsByHalt halt
        (S.faults out.old) (S.written out.old) (S.faults out.new) (S.written out.new) result }
{
    match halt {
        Halt::JournalUnmade | Halt::JournalUnfinished => Status::FileFault(NamedFile::Journal),
        Halt::Unbegun(stop) => Status::from(stop),
        Halt::Stopped(ScriptStop::Unread) => Status::ReadFault(Input::Script),
        Halt::Stopped(ScriptStop::TooLong) => tell(TOO_LONG, Status::Refused, out),
        Halt::Stopped(ScriptStop::Unit(stop)) => Status::from(stop),
    }
}
