//! What the rows of a timing file say, by signal.

ghost use Rattle.std.specs.Prelude.{◌≡◌, ◌+◌, ◌++◌, ◌∷◌, [], ◌<◌, ℕ, List, Some, IfOk, IfErr, OnOk, if◌then◌else◌, length, map, nat_eq, unwrap_or};
ghost use Rattle.std.specs.List.{range_with_len};
ghost use Rattle.std.specs.BTreeMap.{get};
ghost use Rattle.bench_reader.specs.Netlists as netlists;
ghost use Rattle.bench_reader.specs.KeptNetlists.{driver_of_row};
ghost use Rattle.timing_file.specs.Timing as timings;
ghost use Rattle.timing_file.specs.declared.TimingRow.{TimingRow as RowOf};
ghost use Rattle.design.specs.declared.fault.JoinFile.TheVariants as file;
ghost use Rattle.design.specs.Causes.{out_of_memory};
ghost use Rattle.design.specs.Join as join;
ghost use Rattle.design.specs.Join.{number, cause_of_what, clock_named, flop_of, rows_say, pin_said};
ghost use Rattle.design.specs.inner.Said as said;
ghost use Rattle.design.specs.inner.Said.{KnowsClocks, HasStated, TakesRow, TakesRows, KeepsRows, pin_cmp, stated_of};

use crate::fault::{JoinCause, JoinFault, JoinFile};
use crate::rows::Row;
use bench_reader::{Netlist, Row as NetlistRow};
use circuit_meaning::{Clock, FlipFlop};
use gate_values::{Kind, Value};
use std::alloc::{AllocError, Global};
use std::collections::BTreeMap;
use timing_file::{ClockRow, Timing, TimingRow, TimingWhat};

/// What rows state of signals, or of pins by signal and place. A list ends with the last signal of which a row states something.
#[derive(Drop)]
pub struct SignalTiming {
    pub delays: Vec<Option<u32>>,
    pub pins: BTreeMap<(u32, u32), u32>,
    pub initials: Vec<Option<Value>>,
    pub clocks: Vec<Option<Clock>>,
}

/// The clocks with names, which lie in the rows.
#[derive(Drop)]
pub struct NamedClocks<'a> {
    pub clocks: BTreeMap<&'a [u8], Clock>,
}

impl<'a> NamedClocks<'a> {
    fn read(alloc: Global, rows: &'a [ClockRow]) -> Result<NamedClocks<'a>, JoinFault>
        ensures ok { IfOk result (λ named. KnowsClocks rows.now named.clocks) }
        ensures err { IfErr result (λ fault. fault ≡ out_of_memory) }
    {
        let mut clocks = BTreeMap::new(alloc);
        for row in rows {
            clocks.insert(row.name.bytes(), row.clock)?;
        }
        Ok(NamedClocks { clocks })
    }

    fn named(&self, name: &[u8]) -> Option<Clock>
        ensures { (timing : timings.Content) → KnowsClocks timing.clocks self.now.clocks
            → result ≡ clock_named timing name.now }
    {
        self.clocks.get(name).copied()
    }
}

fn refused(cause: JoinCause, row: &TimingRow) -> JoinFault
    ensures { result ≡ record { cause = cause; file = file.Timing; line = row.now.line } }
{
    JoinFault {
        cause,
        file: JoinFile::Timing,
        line: row.line,
    }
}

/// What drives a signal.
fn row_at(netlist: &Netlist, signal: u32) -> NetlistRow<'_>
    requires { signal < length netlist.now.names }
    ensures driver { driver_of_row result ≡ join.driver_at netlist.now signal }
    ensures sound { netlists.IsNetlistDriver (length netlist.now.names) (driver_of_row result) }
{
    netlist.facts();
    netlist.row(signal)
}

/// Whether a signal is an input.
fn is_input(netlist: &Netlist, signal: u32) -> bool
    requires { signal < length netlist.now.names }
    ensures { result ≡ join.is_input (join.driver_at netlist.now signal) }
{
    match row_at(netlist, signal) {
        NetlistRow::Input => true,
        NetlistRow::Gate { .. } => false,
    }
}

/// Whether a signal is a flip-flop.
fn is_flop(netlist: &Netlist, signal: u32) -> bool
    requires { signal < length netlist.now.names }
    ensures { result ≡ join.is_flop (join.driver_at netlist.now signal) }
{
    match row_at(netlist, signal) {
        NetlistRow::Input => false,
        NetlistRow::Gate { kind, .. } => is_dff(kind),
    }
}

fn is_dff(kind: Kind) -> bool
    ensures { result ≡ join.is_dff kind }
{
    matches!(kind, Kind::Dff)
}

/// Whether a signal is a gate with this pin.
fn has_pin(netlist: &Netlist, signal: u32, place: u32) -> bool
    requires { signal < length netlist.now.names }
    ensures { result ≡ join.has_pin (join.driver_at netlist.now signal) place }
{
    match row_at(netlist, signal) {
        NetlistRow::Input => false,
        NetlistRow::Gate { kind, pins } => !is_dff(kind) && (place as usize) < pins.len(),
    }
}

/// The cause of a row that states this of a signal, if the row is at fault.
fn cause_of(
    netlist: &Netlist,
    clocks: &NamedClocks,
    signal: u32,
    what: &TimingWhat,
) -> Option<JoinCause>
    requires { signal < length netlist.now.names }
    ensures { (timing : timings.Content) → KnowsClocks timing.clocks clocks.now.clocks
        → result ≡ cause_of_what timing (join.driver_at netlist.now signal) what.now }
{
    match what {
        TimingWhat::Delay(_) => {
            if is_input(netlist, signal) {
                Some(JoinCause::NotGate)
            } else {
                None
            }
        }
        TimingWhat::Init(_) => {
            if is_flop(netlist, signal) {
                None
            } else {
                Some(JoinCause::NotFlop)
            }
        }
        TimingWhat::Pin(place, _) => {
            if has_pin(netlist, signal, *place) {
                None
            } else {
                Some(JoinCause::NotPin)
            }
        }
        TimingWhat::Clocked(clock) => {
            if !is_flop(netlist, signal) {
                Some(JoinCause::NotFlop)
            } else if clocks.named(clock.bytes()).is_none() {
                Some(JoinCause::NoClock)
            } else {
                None
            }
        }
    }
}

impl SignalTiming {
    fn new(alloc: Global) -> SignalTiming
        ensures { (netlist : netlists.Content) (timing : timings.Content)
            → HasStated netlist timing [] result }
    {
        SignalTiming {
            delays: Vec::new(alloc),
            pins: BTreeMap::new(alloc),
            initials: Vec::new(alloc),
            clocks: Vec::new(alloc),
        }
    }

    /// Keeps what a row states of a signal.
    fn keep(
        &mut self,
        clocks: &NamedClocks,
        signal: u32,
        what: &TimingWhat,
    ) -> Result<(), JoinFault>
        ensures ok { OnOk result ((netlist : netlists.Content) (timing : timings.Content)
            (before : List RowOf) (row : RowOf)
            → KnowsClocks timing.clocks clocks.now.clocks
            → number netlist row.name ≡ Some signal → row.what ≡ what.now
            → HasStated netlist timing before self.old
            → HasStated netlist timing (before ++ row ∷ []) self.new) }
        ensures err { IfErr result (λ fault. fault ≡ out_of_memory) }
    {
        match what {
            TimingWhat::Delay(delay) => state(&mut self.delays, signal, *delay)?,
            TimingWhat::Init(value) => state(&mut self.initials, signal, *value)?,
            TimingWhat::Pin(place, delay) => {
                self.pins.insert((signal, *place), *delay)?;
            }
            TimingWhat::Clocked(name) => {
                if let Some(clock) = clocks.named(name.bytes()) {
                    state(&mut self.clocks, signal, clock)?;
                }
            }
        }
        Ok(())
    }

    /// Reads one row.
    fn take(
        &mut self,
        netlist: &Netlist,
        clocks: &NamedClocks,
        row: &TimingRow,
    ) -> Result<(), JoinFault>
        ensures { (timing : timings.Content) (before : List RowOf)
            → KnowsClocks timing.clocks clocks.now.clocks
            → HasStated netlist.now timing before self.old
            → TakesRow netlist.now timing before row.now self.new result }
    {
        let signal = match netlist.id_of(row.name.bytes()) {
            None => return Err(refused(JoinCause::UnknownName, row)),
            Some(signal) => signal,
        };
        if let Some(cause) = cause_of(netlist, clocks, signal, &row.what) {
            return Err(refused(cause, row));
        }
        self.keep(clocks, signal, &row.what)
    }

    /// Reads all rows of a timing file.
    pub fn read(
        alloc: Global,
        netlist: &Netlist,
        timing: &Timing,
    ) -> Result<SignalTiming, JoinFault>
        ensures { TakesRows netlist.now timing.now result }
    {
        let clocks = NamedClocks::read(alloc, timing.clocks())?;
        let mut stated = SignalTiming::new(alloc);
        let rows = timing.rows();
        for row in rows {
            stated.take(netlist, &clocks, row)?;
        }
        Ok(stated)
    }

    /// The delay of a gate or flip-flop.
    fn delay_of(&self, timing: &Timing, signal: u32, kind: Kind) -> u32
        ensures { (netlist : netlists.Content)
            → HasStated netlist timing.now timing.now.rows self.now
            → result ≡ join.delay_of netlist timing.now signal kind }
    {
        stated_of(&self.delays, signal).unwrap_or(timing.default_of(kind))
    }

    /// The delay of a pin of a gate that has this delay.
    fn pin_delay(&self, signal: u32, place: u32, of_gate: u32) -> u32
        ensures { (netlist : netlists.Content) (timing : timings.Content)
            → HasStated netlist timing timing.rows self.now
            → result ≡ unwrap_or (rows_say netlist timing.rows signal (pin_said place)) of_gate }
    {
        stated_pin(&self.pins, signal, place).unwrap_or(of_gate)
    }

    fn flop_of(&self, timing: &Timing, signal: u32, pins: &[u32]) -> FlipFlop
        requires { length pins.now ≡ 1 }
        ensures { (netlist : netlists.Content)
            → HasStated netlist timing.now timing.now.rows self.now
            → result ≡ flop_of netlist timing.now signal pins.now }
    {
        FlipFlop {
            pin: pins[0],
            delay: self.delay_of(timing, signal, Kind::Dff),
            clock: stated_of(&self.clocks, signal).or(timing.clock()),
            initial: stated_of(&self.initials, signal).unwrap_or(Value::X),
        }
    }

    /// Appends the delays of the first pins of a gate.
    fn push_pin_delays(
        &self,
        timing: &Timing,
        signal: u32,
        kind: Kind,
        count: u32,
        delays: &mut Vec<u32>,
    ) -> Result<(), AllocError>
        ensures { OnOk result ((netlist : netlists.Content)
            → HasStated netlist timing.now timing.now.rows self.now
            → delays.new.items ≡ delays.old.items ++ map (join.pin_delay netlist timing.now signal
            kind) (range_with_len 0 count)) }
    {
        let of_gate = self.delay_of(timing, signal, kind);
        for place in 0..count {
            delays.push(self.pin_delay(signal, place, of_gate))?;
        }
        Ok(())
    }

    /// Keeps what drives a signal, after the signals before it.
    fn keep_row(
        &self,
        netlist: &Netlist,
        timing: &Timing,
        signal: u32,
        kept: &mut Rows,
    ) -> Result<(), AllocError>
        requires signal { signal < length netlist.now.names }
        requires stated { HasStated netlist.now timing.now timing.now.rows self.now }
        requires rows { KeepsRows netlist.now timing.now signal kept.old }
        ensures { OnOk result (KeepsRows netlist.now timing.now (signal + 1) kept.new) }
    {
        netlist.facts();
        let row = match row_at(netlist, signal) {
            NetlistRow::Input => {
                let place = kept.inputs;
                kept.inputs += 1;
                Row::Input { place }
            }
            NetlistRow::Gate { kind, pins } if is_dff(kind) => {
                let place = place_after(kept.flops.len())?;
                kept.flops.push(self.flop_of(timing, signal, pins))?;
                Row::Flop { place }
            }
            NetlistRow::Gate { kind, pins } => {
                let start = place_after(kept.delays.len())?;
                let count = pins.len() as u32;
                self.push_pin_delays(timing, signal, kind, count, &mut kept.delays)?;
                let least = least_of(&kept.delays[start as usize..]);
                Row::Gate { kind, least, start }
            }
        };
        kept.rows.push(row)?;
        Ok(())
    }

    /// What is kept of all signals.
    pub fn rows(
        &self,
        alloc: Global,
        netlist: &Netlist,
        timing: &Timing,
    ) -> Result<Rows, AllocError>
        requires { HasStated netlist.now timing.now timing.now.rows self.now }
        ensures { IfOk result (λ kept. KeepsRows netlist.now timing.now (length netlist.now.names)
            kept) }
    {
        let signals = netlist.signals();
        let mut kept = Rows {
            inputs: 0,
            rows: Vec::with_capacity(alloc, signals as usize)?,
            delays: Vec::new(alloc),
            flops: Vec::new(alloc),
        };
        for signal in 0..signals {
            self.keep_row(netlist, timing, signal, &mut kept)?;
        }
        Ok(kept)
    }
}

/// What is kept of the signals, except the settings of the inputs.
#[derive(Drop)]
pub struct Rows {
    /// The number of inputs.
    pub inputs: u32,
    pub rows: Vec<Row>,
    /// The delays of the pins of all gates, one gate after another.
    pub delays: Vec<u32>,
    /// The flip-flops in the order of the signals.
    pub flops: Vec<FlipFlop>,
}

/// The place after this many items. Where they are too many, it is answered as where memory runs out.
fn place_after(items: usize) -> Result<u32, AllocError>
    ensures { IfOk result (λ place. place ≡ items) }
{
    u32::try_from(items).map_err(|_| AllocError)
}

/// What a list has of a signal.
fn stated_of<V: Copy>(list: &[Option<V>], signal: u32) -> Option<V>
    ensures { result ≡ stated_of list.now signal }
{
    *list.get(signal as usize)?
}

/// States this of a signal.
fn state<V: Copy>(list: &mut Vec<Option<V>>, signal: u32, value: V) -> Result<(), AllocError>
    ensures { OnOk result ((s : ℕ) → stated_of list.new.items s
        ≡ (if nat_eq signal s then Some value else stated_of list.old.items s)) }
{
    let place = signal as usize;
    if place >= list.len() {
        list.resize(place + 1, None)?;
    }
    list[place] = Some(value);
    Ok(())
}

/// The delay that is stated of a pin. Most files state none, and there no pins are compared.
fn stated_pin(pins: &BTreeMap<(u32, u32), u32>, signal: u32, place: u32) -> Option<u32>
    ensures { result ≡ get pin_cmp pins.now (signal, place) }
{
    if pins.is_empty() {
        None
    } else {
        pins.get(&(signal, place)).copied()
    }
}

/// The least of these delays.
fn least_of(delays: &[u32]) -> u32
    ensures { result ≡ said.least_of delays.now }
{
    match delays {
        [] => 0,
        [first, more @ ..] => more.iter().fold(*first, |least, delay| least.min(*delay)),
    }
}
