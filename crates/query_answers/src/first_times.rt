//! The answer to the question when a signal first has a value, asked of the memo.
//!
//! [`first_time`] returns the time in a query's window at which its signal first has a given value, over shards without entries. It asks
//! for one cell after another, each by its first time, from the start of the window (`Asking::cell`). It stops at the first
//! cell that has the value, and asks for nothing after it. The entries then close the query up to the returned time, and no further
//! (`IsFirstOutcome` of `session_meaning`). If the value does not occur, they close the whole window. If the answer would take more
//! evaluations than the query's budget, the outcome is the budget, and the entries hold the cause. Each cell is asked for under the
//! query's number, charged with the fills so far, and none is asked for after a refusal (`AsksFreed` of `plan_core::asked`).
//!
//! The batch that B names has one query: that of the caller, with its window cut after the first time (`up_to_first`). The caller does
//! not know that time. It stands only in the name, which exists in proofs and not at run time.
//!
//! The cost grows with the cells walked, and not with the length of the window. Let n be the final number of entries. A cell takes one
//! look-up of O(log n) steps. A cell that is not known yet also takes the cost of its strand, a step for each shard, and O(log n) steps
//! to read each of its entries. The call allocates an index of the cells that the entries say.
//!
//! ```
//! let FirstDone { outcome, shards } = first_time(alloc, design, shards, query, Value::One)?;
//! if let Outcome::Answer(Some(time)) = outcome {
//!     println!(rt; "at {time}")?;
//! }
//! ```

mod firsts;

pub use firsts::{FirstDone, first_time};
