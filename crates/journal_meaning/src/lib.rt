//! The journal of a memo: the batches of queries, which journals of them are legal, to which state they lead, and when a query is closed.
//!
//! A memo keeps cells of signals in shards. Each shard records what it does, one [`Entry`] a step: it tells a stored cell, a point is
//! claimed for a query, filled or dropped, a cell is evicted, a query is refused a point. The entries of a batch of queries are its
//! journal.
//!
//! - A [`Query`] is one of those that a batch asks together (`src/batch.rt`). `specs/Batches`, `specs/Lawful` and `specs/Pieces` define
//!   batches, the points that they need, and the pieces of a window. `plan_machine` builds on these too.
//! - [`Entry`] is a plain value that every crate above uses. The definitions in `specs/` use it as their record, together with the
//!   points and cells of `valid_intervals` and the queries.
//! - `specs/States` is the state of a shard. `specs/Table` says what each entry needs of the state and changes in it. `specs/Allowed`
//!   says what it may name: points that a query of the batch needs, right cells, and at most a query's budget of claims.
//! - `specs/Replay` folds the table over a journal, and says which journals of a batch and of a trim are legal. `specs/Sections`
//!   joins them to the journal of a session.
//! - `specs/Entries` is what a single entry says, which [`Entry::said`] answers. [`Entry::filled`] tells a fill from the others.
//! - `specs/Counts` counts evaluations, those of different points, and repeated ones. `specs/Answers` says when a query is closed,
//!   why one is refused for its budget, and what the answer of a query is.
//! - `specs/Laws` holds theorems on every legal journal. They are the contracts of the functions below, which do nothing.
//!
//! For code that records and reads entries, `specs/Grown` says what the entries of a batch say, count and name after more of them are
//! recorded. `specs/Index` defines an index of their cells, and `specs/Trims` the entries of a trim. Lemmas on one more
//! entry stand in `proofs/More`.
//!
//! An entry is a few numbers, which are copied.
//!
//! An example: signal 1 is a buffer with a delay of 1, and its input is 1 from time 0 to the horizon, 10. Queries for time 5 and then
//! time 6, asked of an empty shard, leave the journal
//!
//! ```text
//! Claimed { q: 1, p: 1 at 5 }
//! Filled { q: 1, p: 1 at 5, cell: 1 from 1 to 11 }
//! Told { q: 2, p: 1 at 6, cell: 1 from 1 to 11 }
//! ```
//!
//! `proofs/Examples` has more legal journals, and `proofs/Refusals` has illegal ones.
#![tactic(auto)]

ghost use Rattle.std.specs.Prelude.{◌≡◌, Some, None, IfSome, IfNone};
ghost use Rattle.journal_meaning.specs.declared.Entry.TheVariants.{Filled};
ghost use Rattle.journal_meaning.specs.Answers.{is_fill_of};
ghost use Rattle.journal_meaning.specs.Counts.{evaluated_point};
ghost use Rattle.journal_meaning.specs.Entries.{cell_said};
ghost use Rattle.journal_meaning.specs.Laws.{CountsAdd, AgainAfterEviction, OneFillPerEviction, SpentNeedsMore, EnoughBudget};

mod batch;

pub use batch::{Query, pieces_make_windows};
use valid_intervals::{Cell, Point};

/// What a shard of the memo did. `q` is the number of the query that it served, and `p` the point.
#[derive(Clone, Copy, Debug, PartialEq, Eq)]
pub enum Entry {
    /// A stored cell covers the point, and is now the most recent.
    Told { q: u32, p: Point, cell: Cell },
    /// The query is evaluating the point.
    Claimed { q: u32, p: Point },
    /// The point is evaluated, and its cell is now the most recent.
    Filled { q: u32, p: Point, cell: Cell },
    /// The least recent cell made place for the next one. In a trim it was only removed.
    Evicted { signal: u32, start: u32 },
    /// The claim ends without an evaluation.
    Dropped { q: u32, p: Point },
    /// The query's budget was spent, so it was refused the point. It had `claims` claims, at most its budget.
    Spent { q: u32, p: Point, claims: u32 },
}

impl Entry {
    /// The point for which the entry says a cell, and that cell.
    pub fn said(&self) -> Option<(Point, Cell)>
        ensures some { IfSome result (λ r. cell_said self.now ≡ Some
            (record { point = r.0; cell = r.1 })) }
        ensures none { IfNone result (cell_said self.now ≡ None) }
    {
        match self {
            Entry::Told { p, cell, .. } | Entry::Filled { p, cell, .. } => Some((*p, *cell)),
            _ => None,
        }
    }

    /// The query, the point and the cell of a fill.
    pub fn filled(&self) -> Option<(u32, Point, Cell)>
        ensures some { IfSome result (λ r. self.now ≡ Filled r.0 r.1 r.2) }
        ensures none { IfNone result (evaluated_point self.now ≡ None) }
    {
        match self {
            Entry::Filled { q, p, cell } => Some((*q, *p, *cell)),
            _ => None,
        }
    }

    /// Whether the entry is a fill for the query with this number.
    pub fn is_fill_of(&self, number: u32) -> bool
        ensures { result ≡ is_fill_of number self.now }
    {
        matches!(self, Entry::Filled { q, .. } if *q == number)
    }
}

/// The number of evaluations is that of different points plus that of repeated ones.
pub fn counts_add()
    ensures { CountsAdd }
{}

/// Between two evaluations of a point, in one section or in several, its cell was evicted.
pub fn again_after_eviction()
    ensures { AgainAfterEviction }
{}

/// A point is evaluated at most once more than its cell is evicted.
pub fn one_fill_per_eviction()
    ensures { OneFillPerEviction }
{}

/// A query that was refused needs more points than its budget, if nothing was evicted or the needed cells fit.
pub fn spent_needs_more()
    ensures { SpentNeedsMore }
{}

/// Under the same condition, a query whose budget is at least its need is answered by its wave.
pub fn enough_budget()
    ensures { EnoughBudget }
{}
