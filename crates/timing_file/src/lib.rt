//! The timing file: delays, clocks and initial values.
//!
//! The file is text after the rules of `texts`. The words of a line are
//! divided by blanks, keywords are in lower case, and the order of the lines is
//! free. A FIRST is from 0 to 1,000,000, a PERIOD and a DELAY from 1 to
//! 1,000,000, a place K from 0 to 63.
//!
//! | line | meaning |
//! |---|---|
//! | `clock FIRST PERIOD` | the clock of each flip-flop without a `clocked` line |
//! | `default DELAY` | the delay of every kind |
//! | `default KIND DELAY` | the delay of one kind, in either case, BUF being BUFF |
//! | `delay NAME DELAY` | the delay of one gate or flip-flop |
//! | `init NAME VALUE` | the initial value of a flip-flop: `0`, `1`, `x` or `X` |
//!
//! A file whose first line that isn't blank is `version 2`, these words as they
//! are, may have three more forms. In any other file they are refused.
//!
//! | line | meaning |
//! |---|---|
//! | `pin NAME K DELAY` | the delay of pin K of a gate, counted from 0 |
//! | `clock NAME FIRST PERIOD` | a clock with a name; the names of clocks are a space of their own |
//! | `clocked FLOP NAME` | the flip-flop has the clock of this name |
//!
//! No two lines may state the same thing: one clock and one default without a
//! name, and for each kind, name, and name and place, one line of each form.
//!
//! `read_timing` reads a whole file. Its one clause says that the answer is
//! `timing_of` of the text (`specs/Timing`): the content, or the first line at
//! fault with its cause. Only want of memory is left open. `Timing` is seen by contracts as its
//! content. Whether a name is a gate or a flip-flop of some netlist is for the
//! crate above to test.
//!
//! Reading takes one walk over the text, one look-up in an ordered set a line and
//! one copy of each name, so time and memory grow with the length of the text.
//! The set of what was seen borrows the names from the text. `default_of` looks
//! through at most nine kinds.
//!
//! ```text
//! let timing = read_timing(alloc, b"default 2\ndelay y 5\n")?;
//! let delay = timing.default_of(Kind::And);
//! for row in timing.rows() { .. row.name.bytes() .. row.what .. }
//! ```
#![tactic(auto)]

ghost use Rattle.std.specs.Prelude.{◌≡◌};
ghost use Rattle.timing_file.specs.Timing as timings;

mod content;
mod form;
mod reader;
mod statement;

use crate::content::TimingContent;
use circuit_meaning::Clock;
use gate_values::{Kind, Value};
pub use reader::read_timing;
use std::marker::Model;
use texts::Text;
use texts::line_faults::{LineCause, LineFault};

/// Why a line of the file is refused, in the order in which the causes of one
/// line are tested.
#[derive(Clone, Copy, Debug, PartialEq, Eq)]
pub enum TimingCause {
    /// The line has none of the forms that the file may have.
    Syntax,
    /// A number is outside its range.
    Range,
    /// An earlier line states the same thing.
    Twice,
    /// Memory ran out.
    OutOfMemory,
}

impl TimingCause {
    ghost use Rattle.timing_file.specs.Causes.{number_of};

    /// The number that is printed for the cause. That of `OutOfMemory` never is.
    pub fn number(self) -> u8
        ensures { result ≡ number_of self }
    {
        match self {
            TimingCause::Syntax => 1,
            TimingCause::Range => 2,
            TimingCause::Twice => 3,
            TimingCause::OutOfMemory => 4,
        }
    }
}

impl LineCause for TimingCause {
    ghost use Rattle.timing_file.specs.declared.TimingCause.TheVariants.{OutOfMemory};

    ghost memory = { OutOfMemory };

    fn out_of_memory() -> TimingCause {
        TimingCause::OutOfMemory
    }
}

/// The first line at fault.
pub type TimingFault = LineFault<TimingCause>;

/// What a row says of its name.
#[derive(Drop)]
pub enum TimingWhat {
    /// The delay of a gate or flip-flop.
    Delay(u32),
    /// The initial value of a flip-flop: 0, 1 or x.
    Init(Value),
    /// The place of a pin, counted from 0, and its delay.
    Pin(u32, u32),
    /// The name of the flip-flop's clock.
    Clocked(Text),
}

/// A `delay`, `init`, `pin` or `clocked` line.
#[derive(Drop)]
pub struct TimingRow {
    pub line: u32,
    pub name: Text,
    pub what: TimingWhat,
}

/// A `clock` line with a name.
#[derive(Drop)]
pub struct ClockRow {
    pub line: u32,
    pub name: Text,
    pub clock: Clock,
}

/// What a timing file says.
#[derive(Drop)]
pub struct Timing {
    stated: TimingContent,
}

impl Model for Timing {
    ghost use Rattle.timing_file.specs.Timing.{Content};
    ghost use Rattle.timing_file.specs.Ranges.{IsTiming};

    ghost Value = { Content };

    ghost view = { λ t. t.stated };

    ghost invariant = { λ t. IsTiming t.stated };
}

impl Timing {
    ghost use Rattle.timing_file.specs.Ranges.{IsDelay, IsTiming};

    fn new(stated: TimingContent) -> Timing
        requires { IsTiming stated }
        ensures { result ≡ stated }
    {
        Timing { stated }
    }

    /// The law of every timing, which the join of a design needs: each number is in its range. It does nothing.
    pub fn facts(&self)
        ensures { IsTiming self.now }
    {
        let _ = &self.stated;
    }

    /// The clock of the flip-flops without a `clocked` line.
    pub fn clock(&self) -> Option<Clock>
        ensures { result ≡ self.now.clock }
    {
        self.stated.clock()
    }

    /// The delay of the gates of a kind that have no line of their own, and of
    /// flip-flops for `Kind::Dff`: that of the kind's line, else of the plain
    /// `default` line, else 1.
    pub fn default_of(&self, kind: Kind) -> u32
        ensures stated { result ≡ timings.default_of self.now kind }
        ensures within { IsDelay result }
    {
        self.stated.default_of(kind)
    }

    /// The `delay`, `init`, `pin` and `clocked` lines, in the order of the file.
    pub fn rows(&self) -> &[TimingRow]
        ensures { result.now ≡ self.now.rows }
    {
        self.stated.rows()
    }

    /// The clocks with a name, in the order of the file.
    pub fn clocks(&self) -> &[ClockRow]
        ensures { result.now ≡ self.now.clocks }
    {
        self.stated.clocks()
    }
}
