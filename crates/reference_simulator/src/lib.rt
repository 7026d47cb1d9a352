//! A plain, slow simulator that computes a value from its definition.
//!
//! A [`Simulator`] holds a circuit as `circuit_meaning` defines it. [`Simulator::value_at`] returns the value of a signal at a time,
//! which is that of full forward simulation. It asks each pin for its value at the earlier time that the pin reads, and so on
//! recursively. It keeps no value, neither between calls nor within one. Its time can grow as the number of pins to the power of the
//! time asked for, so it is a reference for small circuits alone.
//!
//! A simulator allocates only its elements, and its answers cannot fail.
//!
//! ```
//! let elements = vec![in alloc; Element::Input(settings), Element::Gate(Kind::Not, pins)]?;
//! if let Some(simulator) = Simulator::new(10, elements) {
//!     let value = simulator.value_at(1, 7);
//! }
//! ```
#![tactic(auto)]

ghost use Rattle.std.specs.Prelude.{◌≡◌, ◌≢◌, ℕ, ◌+◌, ◌*◌, ◌<◌, ◌≤◌, ◌↔◌, length, IsTrue, All, AllPairs, IfSome, IsNone};
ghost use Rattle.circuit_meaning.specs.Circuit.{Circuit, IsCircuit, AreSettings, ArePins, IsFlipFlop, driver, IsDriver};
ghost use Rattle.circuit_meaning.specs.Forward.{value, last_setting, input_value, later};
ghost use Rattle.circuit_meaning.specs.Edges.{last_edge, shown_edge};
ghost use Rattle.reference_simulator.specs.Elements.{circuit_of, driver_of};

use circuit_meaning::{Clock, FlipFlop, Pin, Setting};
use gate_values::{Kind, Value, eval_all};
use std::marker::Model;

/// What drives a signal.
#[derive(Drop)]
pub enum Element {
    /// An input, with its settings in any order.
    Input(Vec<Setting>),
    Gate(Kind, Vec<Pin>),
    Flop(FlipFlop),
}

/// A circuit with its horizon. The model is the circuit of `circuit_meaning`. A signal's number is its place among the elements.
#[derive(Drop)]
pub struct Simulator {
    horizon: u32,
    elements: Vec<Element>,
}

impl Model for Simulator {
    ghost Value = { Circuit };

    ghost view = { λ s. circuit_of s.horizon s.elements.items };

    ghost invariant = { λ s. IsCircuit (circuit_of s.horizon s.elements.items) };
}

/// Whether all settings have different times.
fn are_different(settings: &[Setting]) -> bool
    ensures { IsTrue result ↔ AllPairs (λ a b. a.time ≢ b.time) settings.now }
{
    for i in 0..settings.len() {
        let time = settings[i].time;
        for j in 0..i {
            if settings[j].time == time {
                return false;
            }
        }
    }
    true
}

fn are_settings(settings: &[Setting], horizon: u32) -> bool
    ensures { IsTrue result ↔ AreSettings horizon settings.now }
{
    settings.iter().all(|s| s.time <= horizon) && are_different(settings)
}

fn are_pins(kind: Kind, pins: &[Pin], signals: u64) -> bool
    ensures { IsTrue result ↔ ArePins signals kind pins.now }
{
    kind.allows(pins.len())
        && pins.iter().all(|p| (p.signal as u64) < signals)
        && pins.iter().all(|p| 1 <= p.delay)
}

fn is_flip_flop(f: FlipFlop, signals: u64) -> bool
    ensures { IsTrue result ↔ IsFlipFlop signals f }
{
    let runs = match f.clock {
        None => true,
        Some(clock) => 1 <= clock.period,
    };
    runs && (f.pin as u64) < signals && 1 <= f.delay && f.initial != Value::Z
}

/// Whether the element fits a circuit with this many signals.
fn is_driver(element: &Element, signals: u64, horizon: u32) -> bool
    ensures { IsTrue result ↔ IsDriver signals horizon (driver_of element.now) }
{
    match element {
        Element::Input(settings) => are_settings(settings, horizon),
        Element::Gate(kind, pins) => are_pins(*kind, pins, signals),
        Element::Flop(f) => is_flip_flop(*f, signals),
    }
}

fn are_drivers(elements: &[Element], horizon: u32) -> bool
    ensures { IsTrue result ↔ IsCircuit (circuit_of horizon elements.now) }
{
    let signals = elements.len() as u64;
    for element in elements {
        if !is_driver(element, signals, horizon) {
            return false;
        }
    }
    true
}

impl Simulator {
    /// A simulator of these elements, if they make a circuit.
    pub fn new(horizon: u32, elements: Vec<Element>) -> Option<Simulator>
        ensures some { IfSome result (λ s. s ≡ circuit_of horizon elements.items) }
        ensures none { IsNone result ↔ (IsCircuit (circuit_of horizon elements.items) → ⊥) }
    {
        if are_drivers(&elements, horizon) {
            Some(Simulator { horizon, elements })
        } else {
            None
        }
    }

    /// The last time that is simulated.
    pub fn horizon(&self) -> u32
        ensures { result ≡ self.now.horizon }
    {
        self.horizon
    }

    /// The number of signals.
    pub fn signals(&self) -> usize
        ensures { result ≡ length self.now.drivers }
    {
        self.elements.len()
    }

    /// What drives a signal.
    fn element(&self, signal: u32) -> &Element
        requires { signal < length self.now.drivers }
        ensures driver { driver self.now signal ≡ driver_of result.now }
        ensures fits { IsDriver (length self.now.drivers) self.now.horizon (driver_of result.now) }
        ensures circuit { IsCircuit self.now }
    {
        &self.elements[signal as usize]
    }
}

/// The last edge that is shown at a time.
#[tactic(auto, unfolding(circuit_meaning::specs::Edges::last_edge))]
fn edge_of(clock: Clock, delay: u32, time: u32) -> Option<u32>
    requires { 1 ≤ clock.period }
    ensures { result ≡ last_edge clock delay time }
{
    if u64::from(time) < u64::from(clock.first) + u64::from(delay) {
        None
    } else {
        let late = time - delay - clock.first;
        Some(clock.first + (late - late % clock.period))
    }
}

fn shown_edge(f: FlipFlop, time: u32) -> Option<u32>
    requires { IfSome f.clock (λ k. 1 ≤ k.period) }
    ensures { result ≡ shown_edge f.clock f.delay time }
{
    match f.clock {
        None => None,
        Some(clock) => edge_of(clock, f.delay, time),
    }
}

fn later(a: Setting, b: Option<Setting>) -> Option<Setting>
    ensures { result ≡ later a b }
{
    match b {
        None => Some(a),
        Some(b) => { if a.time < b.time { Some(b) } else { Some(a) } }
    }
}

/// The last setting at or before a time.
#[tactic(auto, unfolding(circuit_meaning::specs::Forward::last_setting))]
fn setting_at(settings: &[Setting], time: u32) -> Option<Setting>
    ensures { result ≡ last_setting settings.now time }
{
    let mut best = None;
    let mut left = settings.len();
    while left > 0 {
        left -= 1;
        let s = settings[left];
        if s.time <= time {
            best = later(s, best);
        }
    }
    best
}

impl Simulator {
    /// The value of a signal at a time, computed from earlier values. The time may be later than the horizon.
    pub fn value_at(&self, signal: u32, time: u32) -> Value
        requires { signal < length self.now.drivers }
        ensures { result ≡ value self.now signal time }
    {
        match self.element(signal) {
            Element::Input(settings) => match setting_at(settings, time) {
                None => Value::X,
                Some(s) => s.value,
            },
            Element::Gate(kind, pins) => {
                let mut seen = [Value::X; 64];
                for i in 0..pins.len() {
                    let pin = pins[i];
                    seen[i] = if pin.delay <= time {
                        self.value_at(pin.signal, time - pin.delay)
                    } else {
                        Value::X
                    };
                }
                eval_all(*kind, &seen[..pins.len()])
            }
            Element::Flop(f) => match shown_edge(*f, time) {
                None => f.initial,
                Some(e) => eval_all(Kind::Dff, &[self.value_at(f.pin, e)]),
            },
        }
    }
}
