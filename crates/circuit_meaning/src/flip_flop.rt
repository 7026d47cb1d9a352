//! The edges of clocks, and the times at which a flip-flop shows what it read at an edge.
//!
//! A [`Clock`] has an edge at `first`, and one a period after each edge. A flip-flop with a delay reads its pin at the edge
//! `e` and shows the value from `e + delay` on, until the next edge is shown. Before its first shown edge it has its
//! initial value. [`last_edge`] gives the edge that is shown at a time, and [`flop_span`] the times at which it is shown.
//!
//! Every call takes constant time and does not allocate.
//!
//! ```
//! let clock = Clock { first: 10, period: 10 };
//! let edge = last_edge(&clock, 1, 25); // Some(20)
//! let times = flop_span(&clock, 1, 25, 31); // 21 to 31
//! ```

ghost use Rattle.std.specs.Prelude.{◌≡◌, ◌≤◌, ◌<◌, Some, MatchOption};
ghost use Rattle.valid_intervals.specs.Spans.{IsIn};
ghost use Rattle.circuit_meaning.specs.Edges as edges;
ghost use Rattle.circuit_meaning.specs.Edges.{IsClock, IsLastEdge, ShowsNone, EdgesAreLast};

use valid_intervals::Span;

/// A clock with edges at `first`, `first + period`, `first + 2 * period` and so on. `first` is at most 1,000,000, and
/// `period` is from 1 to 1,000,000.
#[derive(Clone, Copy, Debug, PartialEq, Eq)]
pub struct Clock {
    pub first: u32,
    pub period: u32,
}

/// The last edge that a flip-flop with this delay shows at `t`.
#[tactic(auto, unfolding(crate::specs::Edges::last_edge))]
pub fn last_edge(clock: &Clock, delay: u32, t: u32) -> Option<u32>
    requires clock { IsClock clock.now }
    requires delay { (1 ≤ delay) × (delay ≤ 1000000) }
    requires time { t ≤ 1000000 }
    ensures edge { result ≡ edges.last_edge clock.now delay t }
    ensures last { MatchOption result (ShowsNone clock.now delay t) (IsLastEdge clock.now delay t) }
{
    let shown = clock.first + delay;
    if t < shown {
        None
    } else {
        Some(clock.first + (t - shown) / clock.period * clock.period)
    }
}

/// The times around `t`, below `cut`, at which a flip-flop with this delay shows the same edge as at `t`, or none as at
/// `t`.
pub fn flop_span(clock: &Clock, delay: u32, t: u32, cut: u32) -> Span
    requires clock { IsClock clock.now }
    requires delay { (1 ≤ delay) × (delay ≤ 1000000) }
    requires time { t < cut }
    requires cut { cut ≤ 1000001 }
    ensures span { result ≡ edges.flop_span cut delay (Some clock.now)
        (edges.last_edge clock.now delay t) }
    ensures inside { IsIn result t }
{
    match last_edge(clock, delay, t) {
        None => Span::new(0, (clock.first + delay).min(cut)).unwrap(),
        Some(edge) => {
            let start = edge + delay;
            Span::new(start, (start + clock.period).min(cut)).unwrap()
        }
    }
}

/// A law, for proofs; the function does nothing. For every clock and every time, the shown edge is the greatest one whose
/// delay has passed.
pub fn edges_are_last()
    ensures { EdgesAreLast }
{}
