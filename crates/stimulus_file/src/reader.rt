//! Reading the lines one after the other.

ghost use Rattle.std.specs.Prelude.{◌≤◌, Some, length};
ghost use Rattle.texts.specs.line_faults.Faults.{Answers};
ghost use Rattle.stimulus_file.specs.declared.StimulusCause.TheVariants.{OutOfMemory};
ghost use Rattle.stimulus_file.specs.Forms.{Setting, Horizon};
ghost use Rattle.stimulus_file.specs.Stimulus.{stimulus_of};
ghost use Rattle.stimulus_file.specs.inner.Reading.{Reads, line_seen};

use crate::form::{Form, form_of};
use crate::names::Names;
use crate::seen::{Seen, is_new};
use crate::{NumberedSet, Stimulus, StimulusCause, StimulusFault};
use gate_values::Value;
use std::alloc::Global;
use texts::line_faults::{LineReader, fault, read_lines};

/// What is known after some lines.
#[derive(Drop)]
pub struct StimulusReader<'a> {
    pub horizon: Option<u32>,
    pub names: Names<'a>,
    pub sets: Vec<NumberedSet>,
    /// The places and times of `sets`, once one came that is not later than all of its name before.
    pub seen: Option<Seen>,
}

fn take_horizon(reader: &mut StimulusReader, number: u32, horizon: u32) -> Result<(), StimulusFault>
    ensures { Reads reader.old reader.new number (Horizon (Some horizon)) result }
{
    if reader.horizon.is_some() {
        return fault(StimulusCause::Twice, number);
    }
    reader.horizon = Some(horizon);
    Ok(())
}

fn take_setting<'a>(
    alloc: Global,
    reader: &mut StimulusReader<'a>,
    number: u32,
    name: &'a [u8],
    time: u32,
    value: Value,
) -> Result<(), StimulusFault>
    ensures { Reads reader.old reader.new number (Setting name.entry.now (Some time) value) result }
{
    if reader.horizon.is_none() {
        return fault(StimulusCause::NoHorizon, number);
    }
    let found = reader.names.find(alloc, name, time)?;
    if !is_new(alloc, &mut reader.seen, &reader.sets, found, time)? {
        return fault(StimulusCause::Twice, number);
    }
    reader.sets.push(NumberedSet {
        line: number,
        name: found.place,
        time,
        value,
    })?;
    Ok(())
}

fn take_form<'a>(
    alloc: Global,
    reader: &mut StimulusReader<'a>,
    number: u32,
    form: Form<'a>,
) -> Result<(), StimulusFault>
    ensures { Reads reader.old reader.new number (line_seen form.entry) result }
{
    match form {
        Form::Blank => Ok(()),
        Form::Other => fault(StimulusCause::Syntax, number),
        Form::Horizon(None) => fault(StimulusCause::Range, number),
        Form::Horizon(Some(horizon)) => take_horizon(reader, number, horizon),
        Form::Setting(_, None, _) => {
            if reader.horizon.is_none() {
                fault(StimulusCause::NoHorizon, number)
            } else {
                fault(StimulusCause::Range, number)
            }
        }
        Form::Setting(name, Some(time), value) => {
            take_setting(alloc, reader, number, name, time, value)
        }
    }
}

impl<'a> LineReader<'a> for StimulusReader<'a> {
    ghost use Rattle.stimulus_file.specs.Forms as forms;
    ghost use Rattle.stimulus_file.specs.Stimulus as content;
    ghost use Rattle.stimulus_file.specs.inner.Reading as reading;

    type Cause = StimulusCause;

    ghost Line = { forms.Line };

    ghost line_of = { forms.line_of };

    ghost cause_of = { content.cause_of };

    ghost has_read = { reading.HasRead };

    fn take(&mut self, alloc: Global, number: u32, line: &'a [u8]) -> Result<(), StimulusFault> {
        take_form(alloc, self, number, form_of(line))
    }
}

/// What the file says, or its first line at fault.
pub fn read_stimulus(alloc: Global, text: &[u8]) -> Result<Stimulus, StimulusFault>
    requires { length text.now ≤ 67108864 }
    ensures { Answers OutOfMemory result (stimulus_of text.now) }
{
    let empty = StimulusReader {
        horizon: None,
        names: Names::new(alloc),
        sets: Vec::new(alloc),
        seen: None,
    };
    let reader = read_lines(alloc, empty, text)?;
    let StimulusReader {
        horizon,
        names,
        sets,
        ..
    } = reader;
    match horizon {
        None => Err(StimulusFault {
            cause: StimulusCause::NoHorizon,
            line: 0,
        }),
        Some(horizon) => Ok(Stimulus::new(horizon, names.texts, sets)),
    }
}
