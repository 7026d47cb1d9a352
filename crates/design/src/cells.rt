//! The cells that need no evaluation, and the intervals of flip-flops and of pins.

ghost use Rattle.std.specs.Prelude.{◌≡◌, ◌+◌, ◌<◌, ◌≤◌, length, All, Some, None, IfNone, IfSome, IsSome, min};
ghost use Rattle.std.specs.List.{AllWithin};
ghost use Rattle.valid_intervals.specs.Spans.{from_to, cut_at, IsSpan};
ghost use Rattle.circuit_meaning.specs.Edges as edges;
ghost use Rattle.gate_values.specs.declared.Value.TheVariants.{X};
ghost use Rattle.circuit_meaning.specs.Circuit.{AreFlopLimits};
ghost use Rattle.circuit_meaning.specs.Forward as forward;
ghost use Rattle.circuit_meaning.specs.Forward.{input_value};
ghost use Rattle.circuit_meaning.specs.Cells.{next_setting, input_start};
ghost use Rattle.design.specs.inner.KeptDesigns.{InTimeOrder};
ghost use Rattle.design.specs.inner.Given.{last_of, next_of, later_of};

use circuit_meaning::{FlipFlop, Setting, last_edge};
use gate_values::Value;
use valid_intervals::{Cell, Span};

/// The times `[start, end)`.
pub fn span_of(start: u32, end: u32) -> Span
    requires { IsSpan (from_to start end) }
    ensures { result ≡ from_to start end }
{
    Span::new(start, end).unwrap()
}

/// The number of settings at or before `time`.
fn passed_by(settings: &[Setting], time: u32) -> usize
    requires { InTimeOrder settings.now }
    ensures bound { result ≤ length settings.now }
    ensures passed { AllWithin (λ s. s.time ≤ time) settings.now 0 result }
    ensures later { AllWithin (λ s. time < s.time) settings.now result (length settings.now) }
{
    settings.partition_point(|s| s.time <= time)
}

/// The last of the settings that have passed.
fn last_setting(settings: &[Setting], passed: usize) -> Option<Setting>
    requires { passed ≤ length settings.now }
    ensures { result ≡ last_of settings.now passed }
{
    if passed == 0 {
        None
    } else {
        Some(settings[passed - 1])
    }
}

/// The time of the first setting that has not passed.
fn next_time(settings: &[Setting], passed: usize, limit: u32) -> u32
    ensures { result ≡ next_of settings.now passed limit }
{
    match settings.get(passed) {
        None => limit,
        Some(setting) => setting.time,
    }
}

/// The cell of an input with these settings, before `limit`.
pub fn input_cell(settings: &[Setting], time: u32, limit: u32) -> Cell
    requires order { InTimeOrder settings.now }
    requires settings { All (λ s. s.time < limit) settings.now }
    requires time { time < limit }
    requires limit { limit ≤ 1000001 }
    ensures span { result.span ≡ from_to (input_start (forward.last_setting settings.now time))
        (next_setting settings.now time limit) }
    ensures value { result.value ≡ input_value (forward.last_setting settings.now time) }
{
    let passed = passed_by(settings, time);
    let end = next_time(settings, passed, limit);
    match last_setting(settings, passed) {
        None => Cell {
            span: span_of(0, end),
            value: Value::X,
        },
        Some(last) => Cell {
            span: span_of(last.time, end),
            value: last.value,
        },
    }
}

/// The cell of a gate before the least delay of its pins.
pub fn early_gate(least: u32, time: u32, limit: u32) -> Option<Cell>
    requires time { time < limit }
    requires limit { limit ≤ 1000001 }
    ensures some { IfSome result (λ cell. (time < least) ×
        (cell ≡ record { span = from_to 0 (min least limit); value = X })) }
    ensures none { IfNone result (least ≤ time) }
{
    if time < least {
        Some(Cell {
            span: span_of(0, least.min(limit)),
            value: Value::X,
        })
    } else {
        None
    }
}

/// The edge that a flip-flop shows at `time`.
pub fn shown_edge(flop: &FlipFlop, time: u32) -> Option<u32>
    requires delay { 1 ≤ flop.now.delay }
    requires limits { AreFlopLimits flop.now }
    requires time { time ≤ 1000000 }
    ensures { result ≡ edges.shown_edge flop.now.clock flop.now.delay time }
{
    match flop.clock {
        None => None,
        Some(clock) => last_edge(&clock, flop.delay, time),
    }
}

/// The interval of a flip-flop at a time before `limit`.
pub fn flop_span(flop: &FlipFlop, time: u32, limit: u32) -> Span
    requires delay { 1 ≤ flop.now.delay }
    requires limits { AreFlopLimits flop.now }
    requires time { time < limit }
    requires limit { limit ≤ 1000001 }
    ensures { result ≡ edges.flop_span limit flop.now.delay flop.now.clock
        (edges.shown_edge flop.now.clock flop.now.delay time) }
{
    match flop.clock {
        None => span_of(0, limit),
        Some(clock) => circuit_meaning::flop_span(&clock, flop.delay, time, limit),
    }
}

/// The cell of a flip-flop before the first edge that it shows.
pub fn idle_flop(flop: &FlipFlop, time: u32, limit: u32) -> Option<Cell>
    requires delay { 1 ≤ flop.now.delay }
    requires limits { AreFlopLimits flop.now }
    requires time { time < limit }
    requires limit { limit ≤ 1000001 }
    ensures some { IfSome result (λ cell. (edges.shown_edge flop.now.clock flop.now.delay
        time ≡ None) × (cell ≡ record {
          span = edges.flop_span limit flop.now.delay flop.now.clock
              None;
          value = flop.now.initial;
        })) }
    ensures none { IfNone result (IsSome (edges.shown_edge flop.now.clock flop.now.delay time)) }
{
    match shown_edge(flop, time) {
        Some(_) => None,
        None => Some(Cell {
            span: flop_span(flop, time, limit),
            value: flop.initial,
        }),
    }
}

/// The times around `time` at which a pin with this delay sees what it sees at `time`, from the interval of its
/// source.
pub fn later_span(delay: u32, heard: Option<Span>, time: u32, limit: u32) -> Span
    requires delay { (1 ≤ delay) × (delay ≤ 1000000) }
    requires time { time < limit }
    requires limit { limit ≤ 1000001 }
    requires heard { IfSome heard (λ span. span.start + delay ≤ time) }
    ensures { result ≡ cut_at limit (later_of delay heard) }
{
    match heard {
        None => span_of(0, delay.min(limit)),
        Some(span) => span.later_by(delay, limit).unwrap(),
    }
}
