//! Reading the lines one after another.

ghost use Rattle.std.specs.Prelude.{◌≡◌, ◌+◌, ◌<◌, ◌≤◌, ℕ, IsTrue, false, List, [], ◌∷◌, length, OnOk, IfOk, IfErr};
ghost use Rattle.std.specs.List.{list_any};
ghost use Rattle.gate_values.specs.Gates.{allows};
ghost use Rattle.bench_reader.specs.Lines.{Input, Output, Gate, line_of};
ghost use Rattle.bench_reader.specs.Netlists.{out_of_memory, bench_of};
ghost use Rattle.bench_reader.specs.Netlists as netlists;
ghost use Rattle.bench_reader.specs.inner.Reading.{IsRead, IsSoundReading, Takes, CountsPins, padded_rows, first_missing, is_gate_at, is_defined_at};
ghost use Rattle.bench_reader.specs.Views.{view, each_now};
ghost use Rattle.bench_reader.specs.declared.fault.BenchCause.TheVariants.{OutOfMemory};
ghost use Rattle.texts.specs.line_faults.Faults.{Answers};

use crate::fault::{BenchCause, BenchFault};
use crate::form::{Form, form_of};
use crate::names::Names;
use crate::netlist::{Definition, Netlist};
use crate::outputs::Outputs;
use gate_values::Kind;
use smallvec::SmallVec;
use std::alloc::Global;
use texts::line_faults::{LineReader, fault, read_lines};

/// What the lines so far say: the names in the order of first appearance, a row for each, the pins
/// of all gates in the order of the text, and the outputs.
#[derive(Drop)]
pub struct Reader {
    pub names: Names,
    pub rows: Vec<Definition>,
    pub pins: Vec<u32>,
    pub outputs: Outputs,
}

/// The most bytes of a name, names of a netlist and pins of all its gates.
const LONGEST_NAME: usize = 255;

const MOST_NAMES: usize = 1_048_576;

const MOST_PINS: usize = 4_194_304;

/// A line that names a signal first has about so many bytes.
const LINE_BYTES: usize = 24;

/// For so many names there is room from the start. Where a text has more, room is made as they
/// come.
fn room_for(len: usize) -> usize
    ensures some { 0 < result }
    ensures few { result ≤ 1048576 }
{
    (len / LINE_BYTES + 1).min(MOST_NAMES)
}

fn is_gate(rows: &[Definition], id: u32) -> bool
    ensures { result ≡ is_gate_at rows.now id }
{
    match rows.get(id as usize) {
        Some(Definition::Gate { .. }) => true,
        _ => false,
    }
}

/// A name that is new has no row yet.
fn is_defined(rows: &[Definition], id: u32) -> bool
    ensures { result ≡ is_defined_at rows.now id }
{
    match rows.get(id as usize) {
        Some(Definition::Missing { .. }) => false,
        Some(_) => true,
        None => false,
    }
}

fn is_long(name: &[u8]) -> bool
    ensures { result ≡ netlists.is_long name.now }
{
    name.len() > LONGEST_NAME
}

fn is_any_pin_long(pins: &[&[u8]]) -> bool
    ensures { result ≡ list_any (λ p. netlists.is_long p.now) pins.now }
{
    pins.iter().any(|pin| is_long(pin))
}

fn is_any_long(name: &[u8], pins: &[&[u8]]) -> bool
    ensures { result ≡ list_any netlists.is_long (name.now ∷ each_now pins.now) }
{
    is_long(name) || is_any_pin_long(pins)
}

/// Adds rows for new names, which this line is the first to name.
fn add_rows(rows: &mut Vec<Definition>, names: &Names, line: u32) -> Result<(), BenchFault>
    requires { length rows.old.items ≤ length names.now }
    ensures rows { OnOk result (rows.new.items ≡ padded_rows rows.old.items (length names.now)
        line) }
    ensures memory { IfErr result (λ fault. fault ≡ out_of_memory) }
{
    rows.resize(names.len(), Definition::Missing { line })?;
    Ok(())
}

impl Reader {
    /// What no line says, with room for the names of a text of so many bytes.
    fn new(alloc: Global, len: usize) -> Result<Reader, BenchFault>
        ensures read { IfOk result (IsRead []) }
        ensures memory { IfErr result (λ fault. fault ≡ out_of_memory) }
    {
        Ok(Reader {
            names: Names::with_room(alloc, room_for(len))?,
            rows: Vec::new(alloc),
            pins: Vec::new(alloc),
            outputs: Outputs::new(alloc),
        })
    }

    fn is_crowded(&self) -> bool
        ensures { result ≡ netlists.exceeds (length self.now.names) (length self.now.pins.items) }
    {
        self.names.len() > MOST_NAMES || self.pins.len() > MOST_PINS
    }

    fn take_input(&mut self, alloc: Global, line: u32, name: &[u8]) -> Result<(), BenchFault>
        requires sound { IsSoundReading self.old }
        ensures sound { OnOk result (IsSoundReading self.new) }
        ensures steps { Takes self.old (Input name.now) line self.new result }
    {
        if is_long(name) {
            return fault(BenchCause::NameLong, line);
        }
        let id = self.names.number(alloc, name)?;
        if is_gate(&self.rows, id) {
            return fault(BenchCause::Twice, line);
        }
        add_rows(&mut self.rows, &self.names, line)?;
        if self.is_crowded() {
            return fault(BenchCause::TooMany, line);
        }
        self.rows[id as usize] = Definition::Input;
        Ok(())
    }

    fn take_output(&mut self, alloc: Global, line: u32, name: &[u8]) -> Result<(), BenchFault>
        requires sound { IsSoundReading self.old }
        ensures sound { OnOk result (IsSoundReading self.new) }
        ensures steps { Takes self.old (Output name.now) line self.new result }
    {
        if is_long(name) {
            return fault(BenchCause::NameLong, line);
        }
        let id = self.names.number(alloc, name)?;
        add_rows(&mut self.rows, &self.names, line)?;
        if self.is_crowded() {
            return fault(BenchCause::TooMany, line);
        }
        self.outputs.insert(id)?;
        Ok(())
    }

    /// Takes a gate line whose kind is known and takes so many pins.
    fn take_pins(
        &mut self,
        alloc: Global,
        line: u32,
        name: &[u8],
        kind: Kind,
        pins: &[&[u8]],
    ) -> Result<(), BenchFault>
        requires sound { IsSoundReading self.old }
        requires few { length pins.now ≤ 64 }
        requires counted { IsTrue (allows kind (length pins.now)) }
        ensures sound { OnOk result (IsSoundReading self.new) }
        ensures steps { (word : List ℕ) → CountsPins name.now word kind (each_now pins.now)
            → Takes self.old (Gate name.now word (each_now pins.now)) line self.new result }
    {
        let id = self.names.number(alloc, name)?;
        if is_defined(&self.rows, id) {
            return fault(BenchCause::Twice, line);
        }
        let start = self.pins.len() as u32;
        self.names.number_all(alloc, &mut self.pins, pins)?;
        add_rows(&mut self.rows, &self.names, line)?;
        if self.is_crowded() {
            return fault(BenchCause::TooMany, line);
        }
        self.rows[id as usize] = Definition::Gate {
            kind,
            count: pins.len() as u8,
            start,
        };
        Ok(())
    }

    fn take_gate(
        &mut self,
        alloc: Global,
        line: u32,
        name: &[u8],
        word: &[u8],
        pins: &[&[u8]],
    ) -> Result<(), BenchFault>
        requires sound { IsSoundReading self.old }
        ensures sound { OnOk result (IsSoundReading self.new) }
        ensures steps { Takes self.old (Gate name.now word.now (each_now pins.now)) line self.new
            result }
    {
        let kind = match Kind::from_word(word) {
            None => return fault(BenchCause::UnknownKind, line),
            Some(kind) => kind,
        };
        if !kind.allows(pins.len()) {
            return fault(BenchCause::PinCount, line);
        }
        if is_any_long(name, pins) {
            return fault(BenchCause::NameLong, line);
        }
        self.take_pins(alloc, line, name, kind, pins)
    }

    /// Takes one line, which has these pins if it is a gate's.
    #[inline(always)]
    fn take_form(
        &mut self,
        alloc: Global,
        line: u32,
        form: Form,
        pins: &[&[u8]],
    ) -> Result<(), BenchFault>
        requires sound { IsSoundReading self.old }
        ensures sound { OnOk result (IsSoundReading self.new) }
        ensures steps { Takes self.old (view pins.now form.entry) line self.new result }
    {
        match form {
            Form::Blank => Ok(()),
            Form::Malformed => fault(BenchCause::Syntax, line),
            Form::Input(name) => self.take_input(alloc, line, name),
            Form::Output(name) => self.take_output(alloc, line, name),
            Form::Gate { name, kind } => self.take_gate(alloc, line, name, kind, pins),
        }
    }
}

/// A reading under way, with room for the names of one list.
#[derive(Drop)]
struct Reading<'a> {
    known: Reader,
    listed: SmallVec<&'a [u8], 4>,
}

impl<'a> Reading<'a> {
    /// Before the first line of a text of so many bytes.
    fn new(alloc: Global, len: usize) -> Result<Reading<'a>, BenchFault>
        ensures read { IfOk result (λ reading. IsRead [] reading.known) }
        ensures memory { IfErr result (λ fault. fault ≡ out_of_memory) }
    {
        Ok(Reading {
            known: Reader::new(alloc, len)?,
            listed: SmallVec::new(alloc),
        })
    }
}

impl<'a> LineReader<'a> for Reading<'a> {
    ghost use Rattle.bench_reader.specs.Lines as forms;
    ghost use Rattle.bench_reader.specs.inner.Reading as reading;

    type Cause = BenchCause;

    ghost Line = { forms.Line };

    ghost line_of = { forms.line_of };

    ghost cause_of = { netlists.cause_of };

    ghost has_read = { λ before r. reading.IsRead before r.known };

    fn take(&mut self, alloc: Global, number: u32, line: &'a [u8]) -> Result<(), BenchFault> {
        let form = form_of(&mut self.listed, line)?;
        self.known
            .take_form(alloc, number, form, self.listed.as_slice())
    }
}

/// The line that first names a signal that is defined nowhere.
fn missing_line(rows: &[Definition]) -> Option<u32>
    ensures { result ≡ first_missing rows.now }
{
    for row in rows {
        if let Definition::Missing { line } = row {
            return Some(*line);
        }
    }
    None
}

/// The netlist that a text says, or its first fault.
///
/// The text is read once, in a time that grows with its length. The netlist takes memory for each
/// name, row and pin, and about a third of the text's length, at most 8 MiB, for finding names; the
/// longest list of a line takes up to 32 bytes for each of its names.
pub fn read_bench(alloc: Global, text: &[u8]) -> Result<Netlist, BenchFault>
    requires { length text.now ≤ 67108864 }
    ensures { Answers OutOfMemory result (bench_of text.now) }
{
    let empty = Reading::new(alloc, text.len())?;
    let whole = read_lines(alloc, empty, text)?;
    let reader = whole.known;
    match missing_line(&reader.rows) {
        Some(line) => Err(BenchFault {
            cause: BenchCause::Undefined,
            line,
        }),
        None => Ok(Netlist {
            names: reader.names,
            rows: reader.rows,
            pins: reader.pins,
            outputs: reader.outputs.into_vec(),
        }),
    }
}
