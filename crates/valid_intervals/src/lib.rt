//! Intervals of times, cells and points.
//!
//! A [`Span`] is a nonempty half-open interval of times: its end is the first time after it. A [`Cell`] is a span with the
//! one value that a signal has in it. A [`Point`] is a signal at a time. A [`SignalCell`] is a cell with its signal, which
//! is what a memo stores.
//!
//! A gate changes only when a pin that it looks at changes. The span of its cell is therefore the intersection
//! ([`Span::meet`]) of its pins' spans, each moved by the delay of the pin and cut at the end of the simulation
//! ([`Span::later_by`]). Every span ends at [`LATEST`] at most. A result that would be empty is `None`.
//!
//! Every call takes constant time and does not allocate. All values are copied.
//!
//! ```
//! let pin = Span::new(0, 10)?.later_by(3, 11)?; // 3 to 11
//! let both = pin.meet(Span::new(0, 8)?)?; // 3 to 8
//! let cell = Cell { span: both, value: Value::One };
//! cell.covers(7) // true
//! ```
#![tactic(auto)]

ghost use Rattle.std.specs.Prelude.{◌≡◌, ◌+◌, ◌<◌, ◌≤◌, ◌↔◌, ◌⊎◌, IsTrue, IsNone, IfSome, max, min};
ghost use Rattle.valid_intervals.specs.Cells as cells;
ghost use Rattle.valid_intervals.specs.Spans as spans;
ghost use Rattle.valid_intervals.specs.Spans.{IsIn, IsSpan, from_to, cut_at, MeetsAreIntersections, MovedIsLater};

use gate_values::Value;
use std::marker::Model;

/// The latest end of a span: the greatest horizon plus the greatest delay, plus 1 for each of the two ends.
pub const LATEST: u32 = 2_000_002;

/// The times `[start, end)`. The end is greater than the start, and at most [`LATEST`].
#[derive(Clone, Copy, Debug, PartialEq, Eq)]
pub struct Span {
    start: u32,
    end: u32,
}

impl Model for Span {
    ghost use Rattle.valid_intervals.specs.Spans as spans;

    ghost Value = { spans.Span };

    ghost view = { λ s. record { start = s.start; stop = s.end } };

    ghost invariant = { λ s. spans.IsSpan (spans.from_to s.start s.end) };

    ghost inverse = { λ s. record { start = s.start; end = s.stop } };
}

impl Span {
    /// The times `[start, end)`, if there is one.
    pub fn new(start: u32, end: u32) -> Option<Span>
        ensures some { IfSome result (λ span. span ≡ from_to start end) }
        ensures none { IsNone result ↔ ((end ≤ start) ⊎ (2000002 < end)) }
    {
        if start < end && end <= LATEST {
            Some(Span { start, end })
        } else {
            None
        }
    }

    /// The first time.
    pub fn start(&self) -> u32
        ensures start { result ≡ self.now.start }
        ensures span { IsSpan self.now }
    {
        self.start
    }

    /// The first time after the span.
    pub fn end(&self) -> u32
        ensures end { result ≡ self.now.stop }
        ensures span { IsSpan self.now }
    {
        self.end
    }

    /// The times in both spans, if there is one.
    pub fn meet(self, other: Span) -> Option<Span>
        ensures some { IfSome result (λ span. span ≡ spans.meet self other) }
        ensures none { IsNone result ↔ ((spans.meet self other).stop
            ≤ (spans.meet self other).start) }
    {
        Span::new(self.start.max(other.start), self.end.min(other.end))
    }

    /// The times of the span, each later by `by`, as far as they are below `cut`.
    pub fn later_by(self, by: u32, cut: u32) -> Option<Span>
        requires by { by ≤ 1000001 }
        requires cut { cut ≤ 1000001 }
        ensures some { IfSome result (λ span. span ≡ cut_at cut (spans.moved_span by self)) }
        ensures none { IsNone result ↔ (cut ≤ self.start + by) }
    {
        Span::new(self.start + by, (self.end + by).min(cut))
    }
}

/// An interval in which a signal has one value.
#[derive(Clone, Copy, Debug, PartialEq, Eq)]
pub struct Cell {
    pub span: Span,
    pub value: Value,
}

impl Cell {
    /// Whether the cell contains this time.
    pub fn covers(&self, t: u32) -> bool
        ensures { IsTrue result ↔ IsIn self.now.span t }
    {
        self.span.start <= t && t < self.span.end
    }
}

/// A signal, by its number, at a time.
#[derive(Clone, Copy, Debug, PartialEq, Eq, PartialOrd, Ord, Hash)]
pub struct Point {
    pub signal: u32,
    pub time: u32,
}

/// A cell of a signal.
#[derive(Clone, Copy, Debug, PartialEq, Eq)]
pub struct SignalCell {
    pub signal: u32,
    pub cell: Cell,
}

impl SignalCell {
    /// Whether this is a cell of the point's signal that contains the point's time.
    pub fn covers(&self, point: Point) -> bool
        ensures { result ≡ cells.covers point self.now }
    {
        self.signal == point.signal
            && self.cell.span.start <= point.time
            && point.time < self.cell.span.end
    }
}

/// A law, for proofs; the function does nothing. A time is in the meet of two spans exactly when it is in both.
pub fn meets_are_intersections()
    ensures { MeetsAreIntersections }
{}

/// A law, for proofs; the function does nothing. The times of a moved span are those of the old one, each later by the same
/// number, up to the limit.
pub fn moved_is_later()
    ensures { MovedIsLater }
{}
