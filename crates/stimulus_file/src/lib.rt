//! The stimulus file: how long the simulation runs, and when the inputs are set.
//!
//! The file is text after the rules of `texts`. Its lines have two forms,
//! whose words are divided by blanks and whose keywords are in lower case:
//!
//! | line | meaning |
//! |---|---|
//! | `horizon H` | the last time of the simulation, 0 to 1,000,000; once, on the first line that isn't blank |
//! | `set NAME T VALUE` | the input NAME has the value VALUE from the time T on; T is 0 to 1,000,000, VALUE one of `0`, `1`, `x` and `z`, the letters in either case |
//!
//! Blank lines and comments are passed over, and the `set` lines may stand in
//! any order. A word that is a keyword may be a name where a name stands.
//!
//! `read_stimulus` reads a whole file. Its one clause says that the answer is
//! `stimulus_of` of the text (`specs/Stimulus`): the content, or the first line
//! at fault with its cause. Only want of memory is left open. `Stimulus` is seen by contracts as
//! its content, `horizon` and `sets`, the settings in the order of the file. It keeps each name
//! once, and a setting has the place of its name (`specs/Named`).
//! Whether a name is an input of some netlist is for the crate above to test.
//!
//! Reading takes one walk over the text and one copy of each name, so time and memory grow with
//! the length of the text. A line is searched for a comment only where it has no form as it
//! stands. A name is first compared with the one that came after the last name the time before,
//! which finds it without a look-up where the settings come in rounds over the inputs, or one input
//! after another. Any other is looked up in an ordered map, whose keys lie in the text.
//!
//! While each name is set at later and later times, its greatest time shows that none is set
//! twice at one time. From the first setting on that is not later, an ordered set of all settings
//! shows it, with one look-up more a line. Nothing is hashed, so no choice of names and times
//! makes a look-up slow.
//!
//! ```text
//! let stimulus = read_stimulus(alloc, b"horizon 10\nset a 0 1\n")?;
//! let NamedSets { names, sets } = stimulus.sets();
//! for set in sets { .. names[set.name as usize].bytes() .. set.time .. }
//! ```
#![tactic(auto)]

ghost use Rattle.std.specs.Prelude.{◌≡◌};

mod form;
mod names;
mod reader;
mod seen;

use gate_values::Value;
pub use reader::read_stimulus;
use std::marker::Model;
use texts::Text;
use texts::line_faults::{LineCause, LineFault};

/// Why a line of the file is refused, in the order in which the causes of one
/// line are tested.
#[derive(Clone, Copy, Debug, PartialEq, Eq)]
pub enum StimulusCause {
    /// The line has none of the forms.
    Syntax,
    /// No horizon stands in front of the line, or in the file.
    NoHorizon,
    /// A number is above its range.
    Range,
    /// A second `horizon` line, or a second setting of a name at one time.
    Twice,
    /// Memory ran out.
    OutOfMemory,
}

impl StimulusCause {
    ghost use Rattle.stimulus_file.specs.Causes.{number_of};

    /// The number that is printed for the cause. That of `OutOfMemory` never is.
    pub fn number(self) -> u8
        ensures { result ≡ number_of self }
    {
        match self {
            StimulusCause::Syntax => 1,
            StimulusCause::NoHorizon => 2,
            StimulusCause::Range => 3,
            StimulusCause::Twice => 4,
            StimulusCause::OutOfMemory => 5,
        }
    }
}

impl LineCause for StimulusCause {
    ghost use Rattle.stimulus_file.specs.declared.StimulusCause.TheVariants.{OutOfMemory};

    ghost memory = { OutOfMemory };

    fn out_of_memory() -> StimulusCause {
        StimulusCause::OutOfMemory
    }
}

/// The first line at fault. A file that has no line that isn't blank is refused
/// at line 0.
pub type StimulusFault = LineFault<StimulusCause>;

/// A `set` line: from `time` on an input has `value`. `name` is the place of its name in the list
/// of names. `time` is at most 1,000,000.
#[derive(Clone, Copy)]
pub struct NumberedSet {
    pub line: u32,
    pub name: u32,
    pub time: u32,
    pub value: Value,
}

/// The settings of a file, in its order, and the names of the inputs that they set, each once.
#[derive(Clone, Copy)]
pub struct NamedSets<'a> {
    pub names: &'a [Text],
    pub sets: &'a [NumberedSet],
}

/// What a stimulus file says.
#[derive(Drop)]
pub struct Stimulus {
    horizon: u32,
    names: Vec<Text>,
    sets: Vec<NumberedSet>,
}

impl Model for Stimulus {
    ghost use Rattle.stimulus_file.specs.Stimulus.{Content};
    ghost use Rattle.stimulus_file.specs.Named.{named_rows, HavePlaces};
    ghost use Rattle.stimulus_file.specs.Ranges.{IsStimulus};

    ghost Value = { Content };

    ghost view = { λ s. record {
      horizon = s.horizon;
      sets = named_rows s.names.items s.sets.items;
    } };

    ghost invariant = { λ s. IsStimulus (record {
      horizon = s.horizon;
      sets = named_rows s.names.items
          s.sets.items;
    }) × HavePlaces s.names.items s.sets.items };
}

impl Stimulus {
    ghost use Rattle.stimulus_file.specs.Named.{named_rows, HavePlaces};
    ghost use Rattle.stimulus_file.specs.Ranges.{IsStimulus};

    fn new(horizon: u32, names: Vec<Text>, sets: Vec<NumberedSet>) -> Stimulus
        requires ranges { IsStimulus (record {
          horizon = horizon;
          sets = named_rows names.items
              sets.items;
        }) }
        requires places { HavePlaces names.items sets.items }
        ensures { result ≡ record { horizon = horizon; sets = named_rows names.items sets.items } }
    {
        Stimulus {
            horizon,
            names,
            sets,
        }
    }

    /// The law of every stimulus, which the join of a design needs: no time is above 1,000,000. It does nothing.
    pub fn facts(&self)
        ensures { IsStimulus self.now }
    {
        let _ = &self.horizon;
    }

    /// The last time of the simulation, at most 1,000,000.
    pub fn horizon(&self) -> u32
        ensures { result ≡ self.now.horizon }
    {
        self.horizon
    }

    /// The settings, in the order of the file.
    pub fn sets(&self) -> NamedSets<'_>
        ensures named { named_rows result.names.now result.sets.now ≡ self.now.sets }
        ensures places { HavePlaces result.names.now result.sets.now }
    {
        NamedSets {
            names: &self.names,
            sets: &self.sets,
        }
    }
}
