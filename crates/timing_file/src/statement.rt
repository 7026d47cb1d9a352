//! What a line states, and what it speaks of.

ghost use Rattle.std.specs.Prelude.{◌≡◌};
ghost use Rattle.timing_file.specs.Subjects as subjects;
ghost use Rattle.timing_file.specs.inner.Views.{statement_seen, subject_seen};

use circuit_meaning::Clock;
use gate_values::{Kind, Value};

/// What a line states, with its numbers in their ranges.
#[derive(Clone, Copy)]
pub enum Statement<'a> {
    CommonClock(Clock),
    NamedClock(&'a [u8], Clock),
    Default(u32),
    DefaultOf(Kind, u32),
    DelayOf(&'a [u8], u32),
    InitOf(&'a [u8], Value),
    PinOf(&'a [u8], u32, u32),
    ClockedBy(&'a [u8], &'a [u8]),
}

/// What a line speaks of: no two lines of a file have the same subject.
#[derive(Clone, Copy, PartialEq, Eq, PartialOrd, Ord)]
pub enum Subject<'a> {
    CommonClock,
    NamedClock(&'a [u8]),
    Default,
    DefaultOf(Kind),
    DelayOf(&'a [u8]),
    InitOf(&'a [u8]),
    PinOf(&'a [u8], u32),
    ClockOf(&'a [u8]),
}

impl<'a> Statement<'a> {
    pub fn subject(self) -> Subject<'a>
        ensures { subject_seen result ≡ subjects.subject_of (statement_seen self.entry) }
    {
        match self {
            Statement::CommonClock(_) => Subject::CommonClock,
            Statement::NamedClock(name, _) => Subject::NamedClock(name),
            Statement::Default(_) => Subject::Default,
            Statement::DefaultOf(kind, _) => Subject::DefaultOf(kind),
            Statement::DelayOf(name, _) => Subject::DelayOf(name),
            Statement::InitOf(name, _) => Subject::InitOf(name),
            Statement::PinOf(name, place, _) => Subject::PinOf(name, place),
            Statement::ClockedBy(name, _) => Subject::ClockOf(name),
        }
    }
}
