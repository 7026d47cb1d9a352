//! The claims of a memo's shard: which points are being evaluated, for which query, and who waits for them.
//!
//! The model of a [`ClaimTable`] is the list of the claimed points, ordered by signal and then by time. Each has the query that
//! claimed it, and its waiters in the order of their arrival. A point is claimed at most once. [`ClaimTable::claim`] begins a
//! claim where the point is free, and says whether it was. [`ClaimTable::wait`] appends a waiter at a claimed point.
//! [`ClaimTable::take`] ends the claim and hands back all its waiters in their order. [`ClaimTable::holder`],
//! [`ClaimTable::first`] and [`ClaimTable::len`] only ask. No call drops, copies or reorders a waiter. A waiter that cannot be
//! added is handed back.
//!
//! The table is generic in its [`Waiter`], whose [`Waiter::Room`], such as a vector, keeps the waiters of a claim. A claim gets
//! a room with its first waiter, and most never have one; `take` then hands out an empty one.
//!
//! With n claims each call takes O(log n) steps. `wait` also puts one waiter into a room, and `take` moves the room out.
//! Up to 32 claims are a list in the order of their points, which takes no memory again; more are an ordered map, until all of
//! these have ended. The rooms lie in a map of their own, so that a claim for which nothing waits takes 12 bytes: its point and
//! its query. `claim` and `wait` may allocate; on failure they leave the table as it was, but that `wait` may have
//! made the claim's room, which serves the next waiter. `take`, `holder` and `first` do not allocate.
//!
//! ```text
//! let mut claims: ClaimTable<Strand> = ClaimTable::new(alloc);
//! claims.claim(4, p)?;                  // true: the query of line 4 evaluates p
//! claims.claim(5, p)?;                  // false: p is claimed already, and nothing has changed
//! claims.wait(p, strand)?;              // strand needs it too
//! let woken = claims.take(p);           // p is known: strand may go on
//! ```
#![tactic(auto)]

mod holders;
mod table;
mod waiter;

pub use table::ClaimTable;
pub use waiter::Waiter;
