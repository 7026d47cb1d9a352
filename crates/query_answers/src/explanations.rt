//! The answer to a question why a signal has its value at a time, asked of the memo.
//!
//! [`explain`] asks for the one time of a query, over shards in which nothing is recorded yet, and answers a proof: lines, each a cell of a
//! signal, from which the value follows line by line (`IsExplained` of `session_meaning`). The lines stand in the order of their first
//! times, and each follows from those above it by the rules of `why_proofs`. So whoever has the circuit can check the answer, and has to
//! believe neither the memo nor what is written here. Each line is a cell that an entry of the batch tells or fills, and the entries close
//! the query. Where the answer would take more evaluations than the query's budget, the outcome is the budget, and the entries hold the
//! cause. Each point is asked for under the query's number, charged with what was filled so far, and none after a refusal (`AsksFreed` of
//! `plan_core::asked`).
//!
//! A point that has a base answer is explained by no line. For any other, its cell is the last line. What a cell comes from is asked for at
//! the time at which the cell was asked for (`Asking::cell`): the pins of its gate, one after another, up to the first that
//! decides. What has no base answer among that is a line too. A told cell was evaluated in an earlier batch, so what it comes from may have
//! left the memo, and is then evaluated again.
//!
//! The cells that are still to be lines wait in the order of their first times, and the last of them is taken each time. What it comes
//! from begins earlier, so that no cell is taken twice, and what is taken is the proof from its end to its start.
//!
//! Let n be the number of entries and of lines in the end. A line takes O(log n) steps to be put in order, and its pins, as far as they
//! are looked at, take one look-up of O(log n) steps each. A look-up that finds nothing starts a strand, and takes a step for each shard
//! besides. A call takes memory for an index of the cells that the entries say, for the lines, and for the cells that wait.
//!
//! ```
//! let Explained { outcome, shards } = explain(alloc, design, shards, query)?;
//! if let Outcome::Answer(Explanation { cells, value }) = outcome {
//!     println!(rt; "{value}, by {} cells", cells.as_slice().len())?;
//! }
//! ```

mod children;
mod explained;
mod lines;
mod waiting;

pub use explained::{Explained, explain};
