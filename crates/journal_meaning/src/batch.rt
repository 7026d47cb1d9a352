//! Batches of queries: what is asked together, and which points it needs.
//!
//! A batch is the queries that the shards of one memo are asked together. `specs/Batches` says what a batch is and which points its
//! queries need, `specs/Lawful` what it has to be and which queries its strands may serve. `specs/Pieces` cuts the window of a query
//! into pieces, each with a part of the query's budget. The journal and the strands of `plan_machine`
//! both build on these definitions.
//!
//! ```
//! let query = Query { number: 1, signal: 22, from: 0, to: 11, budget: 50_000 };
//! ```

ghost use Rattle.journal_meaning.specs.Pieces.{PiecesAreStarts, PiecesFollow, PiecesShare};

/// A window of a signal that a script line asks for: the times `[from, to)`. The number is that of the line. At most `budget` points
/// are evaluated for the query.
#[derive(Clone, Copy, Debug, PartialEq, Eq)]
pub struct Query {
    pub number: u32,
    pub signal: u32,
    pub from: u32,
    pub to: u32,
    pub budget: u32,
}

/// The pieces of a query's window begin at roots of the query, are consecutive up to the window's end, and share its budget.
pub fn pieces_make_windows()
    ensures starts { PiecesAreStarts }
    ensures follow { PiecesFollow }
    ensures share { PiecesShare }
{}
