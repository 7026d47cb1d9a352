//! The walk over the pins of a point, up to the first that decides.
//!
//! The value of a gate at a time comes from its pins, one after another as they stand in the netlist, and the first whose value decides is
//! the last that is looked at. A [`PinWalk`] is such a look at one point: it says which point the next pin reads, hears the cell there, and
//! keeps what the cells heard so far come to. Once it is done, it has the cell of its point. A flip-flop has one pin, which reads the edge
//! that the flip-flop shows.
//!
//! Where the cells come from is another matter: a strand (`demand_points`) asks a memo for them, a checker of proofs (`why_proofs`) has
//! those of lines. A walk neither holds nor evaluates anything but its own point.
//!
//! What callers may rely on (`specs/PinWalks`): a walk that is begun at a point with an evaluation, and that hears the cells of the
//! definitions, comes to the cell of the definitions, by the pins that these look at and no others.
//!
//! ```
//! let mut walk = PinWalk::new(&design, point);
//! while !walk.is_done() {
//!     let heard = match walk.next_source() {
//!         None => None, // the pin reads a time before 0
//!         Some(source) => Some(cell_at(source)),
//!     };
//!     walk.see(&design, heard);
//! }
//! let cell = walk.cell(&design);
//! ```
//!
//! A walk takes 36 bytes and no other memory, and is changed in its place. Each call takes constant time.

ghost use Rattle.std.specs.Prelude.{◌≡◌, ◌<◌, length, slice_index_or, nat_eq, None, IfSome};
ghost use Rattle.valid_intervals.specs.Spans as spans;
ghost use Rattle.valid_intervals.specs.Spans.{from_to};
ghost use Rattle.circuit_meaning.specs.Circuit.{Circuit, driver, read_by};
ghost use Rattle.circuit_meaning.specs.Need.{IsEvaluable};
ghost use Rattle.circuit_meaning.specs.Cells.{cell_at};
ghost use Rattle.design.specs.PinWalks.{IsPoint, IsPinWalk, IsLooking, LooksOn, all_points, looked_at, next_point, cell_there};
ghost use Rattle.design.specs.inner.HeardCells.{span_there, value_there};

use crate::Design;
use gate_values::{Evaluation, Value};
use valid_intervals::{Cell, LATEST, Point, Span};

/// A point, how many of its pins were looked at, and what these come to: the times that their intervals have in common, their
/// value, and whether the look is over. Beside it, the point that the next pin reads. In this order no pair of numbers lies across
/// a boundary of 16 bytes, counted from where the walk begins.
#[derive(Clone, Copy)]
pub struct PinWalk {
    pub point: Point,
    pub interval: Span,
    pub source: Option<Point>,
    pub looked: u32,
    pub evaluation: Evaluation,
    pub done: bool,
}

/// Every time.
fn always() -> Span
    ensures { result ≡ from_to 0 2000002 }
{
    match Span::new(0, LATEST) {
        Some(span) => span,
        None => unreachable!(),
    }
}

/// The times that both have, which share one.
fn common(a: Span, b: Span) -> Span
    requires { (spans.meet a b).start < (spans.meet a b).stop }
    ensures { result ≡ spans.meet a b }
{
    match a.meet(b) {
        Some(span) => span,
        None => unreachable!(),
    }
}

/// The value and the interval of what was heard; before time 0 the value is x, and there is no interval.
fn heard_there(heard: Option<Cell>) -> (Value, Option<Span>)
    ensures value { result.0 ≡ value_there heard }
    ensures span { result.1 ≡ span_there heard }
{
    match heard {
        Some(cell) => (cell.value, Some(cell.span)),
        None => (Value::X, None),
    }
}

/// The point that a pin reads, of a point with these pins; none where that is before time 0.
fn source_of(design: &Design, point: Point, pins: &[u32], pin: u32) -> Option<Point>
    requires point { IsPoint design.now.circuit point }
    requires evaluable { IsEvaluable design.now.circuit point.signal point.time }
    requires pins { pins.now ≡ read_by (driver design.now.circuit point.signal) }
    requires pin { pin < length pins.now }
    ensures source { result ≡ slice_index_or (all_points design.now.circuit point) pin None }
    ensures point { IfSome result (IsPoint design.now.circuit) }
{
    design.facts();
    let time = design.child_time(point.signal, point.time, pin)?;
    Some(Point {
        signal: pins[pin as usize],
        time,
    })
}

impl PinWalk {
    /// Nothing is looked at yet.
    pub fn new(design: &Design, point: Point) -> PinWalk
        requires point { IsPoint design.now.circuit point }
        requires evaluable { IsEvaluable design.now.circuit point.signal point.time }
        ensures walk { IsPinWalk design.now.circuit result }
        ensures point { result.point ≡ point }
        ensures looked { result.looked ≡ 0 }
    {
        design.facts();
        let (kind, pins) = design.gate_of(point.signal);
        PinWalk {
            point,
            interval: always(),
            source: source_of(design, point, pins, 0),
            looked: 0,
            evaluation: Evaluation::new(kind),
            done: false,
        }
    }

    /// Whether the look is over: one pin has decided, or none is left.
    pub fn is_done(&self) -> bool
        ensures { (c : Circuit) → IsPinWalk c self.now
            → result ≡ nat_eq self.now.looked (length (looked_at c self.now.point)) }
    {
        self.done
    }

    /// The point that the next pin reads; none where that is before time 0.
    pub fn next_source(&self) -> Option<Point>
        ensures source { (c : Circuit) → IsPinWalk c self.now → result ≡ next_point c self.now }
        ensures point { (c : Circuit) → IsPinWalk c self.now → IfSome result (IsPoint c) }
    {
        self.source
    }

    /// Looks at the next pin, whose cell is heard; before time 0 there is none.
    pub fn see(&mut self, design: &Design, heard: Option<Cell>)
        requires walk { IsPinWalk design.now.circuit self.old }
        requires looking { IsLooking design.now.circuit self.old }
        requires heard { heard ≡ cell_there design.now.circuit
            (next_point design.now.circuit self.old) }
        ensures { LooksOn design.now.circuit self.old self.new }
    {
        design.facts();
        let (value, span) = heard_there(heard);
        let interval = design.pin_span(self.point.signal, self.point.time, self.looked, span);
        let (_, pins) = design.gate_of(self.point.signal);
        let looked = self.looked + 1;
        let done = self.evaluation.kind.decides(value) || looked as usize == pins.len();
        let source = if done {
            None
        } else {
            source_of(design, self.point, pins, looked)
        };
        self.interval = common(self.interval, interval);
        self.source = source;
        self.looked = looked;
        self.evaluation = self.evaluation.see(value);
        self.done = done;
    }

    /// The cell of the point, once the look is over.
    pub fn cell(&self, design: &Design) -> Cell
        requires walk { IsPinWalk design.now.circuit self.now }
        requires done { self.now.looked ≡ length (looked_at design.now.circuit self.now.point) }
        ensures { result ≡ cell_at design.now.circuit self.now.point }
    {
        design.facts();
        Cell {
            span: design.span_over(self.point.signal, self.point.time, self.interval),
            value: self.evaluation.value,
        }
    }
}
