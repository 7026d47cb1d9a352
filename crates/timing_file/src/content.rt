//! What the lines so far state.

ghost use Rattle.std.specs.Prelude.{◌≡◌, ◌∷◌, ◌++◌, [], OnOk, IfErr};
ghost use Rattle.timing_file.specs.Causes.{out_of_memory};
ghost use Rattle.timing_file.specs.inner.Reading.{with_statement};
ghost use Rattle.timing_file.specs.Subjects.{same_kind};
ghost use Rattle.timing_file.specs.Timing as timings;
ghost use Rattle.timing_file.specs.Timing.{content_from};
ghost use Rattle.timing_file.specs.inner.Views.{statement_seen};

use crate::statement::Statement;
use crate::{ClockRow, TimingFault, TimingRow, TimingWhat};
use circuit_meaning::Clock;
use gate_values::Kind;
use std::alloc::Global;
use std::marker::Model;
use texts::Text;

/// What the lines so far state.
#[derive(Drop)]
pub struct TimingContent {
    clock: Option<Clock>,
    default: Option<u32>,
    kinds: Vec<(Kind, u32)>,
    rows: Vec<TimingRow>,
    clocks: Vec<ClockRow>,
}

impl Model for TimingContent {
    ghost use Rattle.timing_file.specs.Timing.{Content};

    ghost Value = { Content };

    ghost view = { λ t. record {
      clock = t.clock;
      default = t.default;
      kinds = t.kinds.items;
      rows = t.rows.items;
      clocks = t.clocks.items;
    } };
}

fn is_same_kind(left: Kind, right: Kind) -> bool
    ensures { result ≡ same_kind left right }
{
    left == right
}

impl TimingContent {
    pub fn new(alloc: Global) -> TimingContent
        ensures { result ≡ content_from [] }
    {
        TimingContent {
            clock: None,
            default: None,
            kinds: Vec::new(alloc),
            rows: Vec::new(alloc),
            clocks: Vec::new(alloc),
        }
    }

    /// Adds what the line with this number states.
    pub fn add(&mut self, alloc: Global, line: u32, statement: Statement) -> Result<(), TimingFault>
        ensures ok { OnOk result (self.new ≡ with_statement self.old line (statement_seen statement.entry)) }
        ensures err { IfErr result (λ fault. fault ≡ out_of_memory) }
    {
        match statement {
            Statement::CommonClock(clock) => {
                self.clock = Some(clock);
                Ok(())
            }
            Statement::NamedClock(name, clock) => self.add_clock(alloc, line, name, clock),
            Statement::Default(delay) => {
                self.default = Some(delay);
                Ok(())
            }
            Statement::DefaultOf(kind, delay) => {
                self.kinds.push((kind, delay))?;
                Ok(())
            }
            Statement::DelayOf(name, delay) => {
                self.add_row(alloc, line, name, TimingWhat::Delay(delay))
            }
            Statement::InitOf(name, value) => self.add_row(
                alloc,
                line,
                name,
                TimingWhat::Init(value),
            ),
            Statement::PinOf(name, place, delay) => {
                self.add_row(alloc, line, name, TimingWhat::Pin(place, delay))
            }
            Statement::ClockedBy(flop, clock) => {
                let clock = Text::from_bytes(alloc, clock)?;
                self.add_row(alloc, line, flop, TimingWhat::Clocked(clock))
            }
        }
    }

    fn add_row(
        &mut self,
        alloc: Global,
        line: u32,
        name: &[u8],
        what: TimingWhat,
    ) -> Result<(), TimingFault>
        ensures ok { OnOk result (self.new ≡ record self.old {
          rows = self.old.rows ++ record { line = line; name = name.now; what = what } ∷ [];
        }) }
        ensures err { IfErr result (λ fault. fault ≡ out_of_memory) }
    {
        let name = Text::from_bytes(alloc, name)?;
        self.rows.push(TimingRow { line, name, what })?;
        Ok(())
    }

    fn add_clock(
        &mut self,
        alloc: Global,
        line: u32,
        name: &[u8],
        clock: Clock,
    ) -> Result<(), TimingFault>
        ensures ok { OnOk result (self.new ≡ record self.old {
          clocks = self.old.clocks ++ record { line = line; name = name.now; clock = clock } ∷ [];
        }) }
        ensures err { IfErr result (λ fault. fault ≡ out_of_memory) }
    {
        let name = Text::from_bytes(alloc, name)?;
        self.clocks.push(ClockRow { line, name, clock })?;
        Ok(())
    }

    pub fn clock(&self) -> Option<Clock>
        ensures { result ≡ self.now.clock }
    {
        self.clock
    }

    pub fn default_of(&self, kind: Kind) -> u32
        ensures { result ≡ timings.default_of self.now kind }
    {
        match self.default_of_kind(kind) {
            Some(delay) => delay,
            None => self.default.unwrap_or(1),
        }
    }

    fn default_of_kind(&self, kind: Kind) -> Option<u32>
        ensures { result ≡ timings.kind_delay kind self.now.kinds }
    {
        for (stated, delay) in &self.kinds {
            if is_same_kind(*stated, kind) {
                return Some(*delay);
            }
        }
        None
    }

    pub fn rows(&self) -> &[TimingRow]
        ensures { result.now ≡ self.now.rows }
    {
        &self.rows
    }

    pub fn clocks(&self) -> &[ClockRow]
        ensures { result.now ≡ self.now.clocks }
    {
        &self.clocks
    }
}
