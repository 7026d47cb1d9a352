//! Reading the lines one after the other.

ghost use Rattle.std.specs.Prelude.{◌≡◌, ◌≤◌, Option, IfOk, IfErr, not, length};
ghost use Rattle.std.specs.Bool.{OnTrue};
ghost use Rattle.texts.specs.line_faults.Faults.{Answers};
ghost use Rattle.timing_file.specs.declared.TimingCause.TheVariants.{OutOfMemory};
ghost use Rattle.timing_file.specs.Causes.{out_of_memory};
ghost use Rattle.timing_file.specs.Forms as forms;
ghost use Rattle.timing_file.specs.Timing.{timing_of};
ghost use Rattle.timing_file.specs.inner.Views.{line_seen, stated_seen, statement_seen};
ghost use Rattle.timing_file.specs.inner.Reading.{AddsSubject, Reads, ReadsStatement, was_seen};

use crate::content::TimingContent;
use crate::form::{Form, form_of};
use crate::statement::{Statement, Subject};
use crate::{Timing, TimingCause, TimingFault};
use std::alloc::Global;
use std::collections::BTreeSet;
use texts::line_faults::{LineReader, fault, read_lines};

/// What is known after some lines. The names in `seen` lie in the text.
#[derive(Drop)]
pub struct TimingReader<'a> {
    /// No line that isn't blank came so far.
    pub is_empty: bool,
    /// The first line that isn't blank is `version 2`.
    pub is_version_2: bool,
    pub stated: TimingContent,
    pub seen: BTreeSet<Subject<'a>>,
}

/// Whether the subject is seen for the first time. It is seen from now on.
fn is_first<'a>(seen: &mut BTreeSet<Subject<'a>>, subject: Subject<'a>) -> Result<bool, TimingFault>
    ensures first { IfOk result (λ first. first ≡ not (was_seen seen.old.keys subject.entry)) }
    ensures added { IfOk result (λ first. OnTrue first
        (AddsSubject seen.old.keys seen.new.keys subject.entry)) }
    ensures err { IfErr result (λ fault. fault ≡ out_of_memory) }
{
    Ok(seen.insert(subject)?)
}

fn take_in_range<'a>(
    alloc: Global,
    reader: &mut TimingReader<'a>,
    number: u32,
    statement: Statement<'a>,
) -> Result<(), TimingFault>
    ensures { ReadsStatement reader.old reader.new number (Option.Some (statement_seen statement.entry))
        result }
{
    if !is_first(&mut reader.seen, statement.subject())? {
        return fault(TimingCause::Twice, number);
    }
    reader.stated.add(alloc, number, statement)?;
    reader.is_empty = false;
    Ok(())
}

fn take_statement<'a>(
    alloc: Global,
    reader: &mut TimingReader<'a>,
    number: u32,
    statement: Option<Statement<'a>>,
) -> Result<(), TimingFault>
    ensures { ReadsStatement reader.old reader.new number (stated_seen statement.entry) result }
{
    match statement {
        None => fault(TimingCause::Range, number),
        Some(statement) => take_in_range(alloc, reader, number, statement),
    }
}

fn take_version(reader: &mut TimingReader, number: u32) -> Result<(), TimingFault>
    ensures { Reads reader.old reader.new number forms.Version result }
{
    if !reader.is_empty {
        return fault(TimingCause::Syntax, number);
    }
    reader.is_empty = false;
    reader.is_version_2 = true;
    Ok(())
}

fn take_form<'a>(
    alloc: Global,
    reader: &mut TimingReader<'a>,
    number: u32,
    form: Form<'a>,
) -> Result<(), TimingFault>
    ensures { Reads reader.old reader.new number (line_seen form.entry) result }
{
    match form {
        Form::Blank => Ok(()),
        Form::Other => fault(TimingCause::Syntax, number),
        Form::Version => take_version(reader, number),
        Form::Plain(statement) => take_statement(alloc, reader, number, statement),
        Form::Versioned(statement) => {
            if reader.is_version_2 {
                take_statement(alloc, reader, number, statement)
            } else {
                fault(TimingCause::Syntax, number)
            }
        }
    }
}

impl<'a> LineReader<'a> for TimingReader<'a> {
    ghost use Rattle.timing_file.specs.Timing as timings;
    ghost use Rattle.timing_file.specs.inner.Reading as reading;

    type Cause = TimingCause;

    ghost Line = { forms.Line };

    ghost line_of = { forms.line_of };

    ghost cause_of = { timings.cause_of };

    ghost has_read = { reading.HasRead };

    fn take(&mut self, alloc: Global, number: u32, line: &'a [u8]) -> Result<(), TimingFault> {
        take_form(alloc, self, number, form_of(line))
    }
}

/// What the file says, or its first line at fault.
pub fn read_timing(alloc: Global, text: &[u8]) -> Result<Timing, TimingFault>
    requires { length text.now ≤ 67108864 }
    ensures { Answers OutOfMemory result (timing_of text.now) }
{
    let empty = TimingReader {
        is_empty: true,
        is_version_2: false,
        stated: TimingContent::new(alloc),
        seen: BTreeSet::new(alloc),
    };
    let reader = read_lines(alloc, empty, text)?;
    Ok(Timing::new(reader.stated))
}
