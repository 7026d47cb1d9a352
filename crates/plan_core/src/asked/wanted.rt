//! Which points are going to be asked for.

ghost use Rattle.std.specs.Prelude.{◌≡◌, ◌<◌, ◌≤◌, ◌^◌, true, Contains};
ghost use Rattle.journal_meaning.specs.declared.batch.Query.{Query as QueryRecord};
ghost use Rattle.valid_intervals.specs.declared.Point.{Point as PointRecord};
ghost use Rattle.plan_core.specs.asked.Wanted.{is_wanted};

use journal_meaning::Query;
use std::marker::Model;
use valid_intervals::Point;

/// Signals whose numbers differ by a multiple of this share a mark.
const MARKS: usize = 1024;

/// Which points are going to be asked for. Entries for others need not be noted.
///
/// The test of a point takes few steps, and lets pass some points that nobody asks for: those of a marked signal, from the earliest to
/// the latest time that is asked for.
#[derive(Drop)]
pub struct Wanted {
    marks: [bool; MARKS],
    from: u32,
    to: u64,
}

impl Model for Wanted {
    ghost use Rattle.plan_core.specs.asked.Wanted.{Marked};

    ghost Value = { Marked };

    ghost view = { λ w. record { marks = w.marks; from = w.from; to = w.to } };
}

impl Wanted {
    /// Every point.
    pub fn all() -> Wanted
        ensures { (p : PointRecord) → p.time < 2 ^ 32 → is_wanted result p ≡ true }
    {
        Wanted {
            marks: [true; MARKS],
            from: 0,
            to: 1 << 32,
        }
    }

    /// The points in the windows of these queries, and perhaps some others.
    pub fn windows(queries: &[Query]) -> Wanted
        ensures { (q : QueryRecord) (p : PointRecord) → Contains queries.now q
            → p.signal ≡ q.signal → q.from ≤ p.time → p.time < q.to → is_wanted result p ≡ true }
    {
        let mut wanted = Wanted {
            marks: [false; MARKS],
            from: u32::MAX,
            to: 0,
        };
        for &q in queries {
            wanted.add(q);
        }
        wanted
    }

    /// Adds the window of a query.
    fn add(&mut self, q: Query)
        ensures wanted_stay { (p : PointRecord) → is_wanted self.old p ≡ true → is_wanted self.new p ≡ true }
        ensures window { (p : PointRecord) → p.signal ≡ q.signal → q.from ≤ p.time → p.time < q.to
            → is_wanted self.new p ≡ true }
    {
        self.marks[q.signal as usize % MARKS] = true;
        self.from = self.from.min(q.from);
        self.to = self.to.max(u64::from(q.to));
    }

    /// Whether the point is one of these.
    pub fn has(&self, p: Point) -> bool
        ensures { result ≡ is_wanted self.now p }
    {
        self.from <= p.time && u64::from(p.time) < self.to && self.marks[p.signal as usize % MARKS]
    }
}
