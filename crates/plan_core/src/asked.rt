//! The cells of a batch, asked of the memo one time at a time by a strand alone.
//!
//! A [`Memo`] is the shards of a batch as its owner goes on alone, once no worker runs: no point is claimed. [`begin`] makes it of shards
//! that workers left, or of new ones, and [`begin_with`] of shards of which others have noted where their entries stand. [`reach`] answers
//! the cell of a query at one time: as a base answer, as what an entry of the batch says, or by a strand that runs alone for this one time
//! (`Plan::run_alone`) and fills what is missing. Where that would take more evaluations than the query's budget, the query is refused.
//!
//! Whoever asks keeps what the query is charged, since each fill for the query counts (`IsChargedMemo`). What a call leaves is told by
//! `HasAsked`, in the words of `plan_machine`: entries for the query alone were added, the children of what was filled are covered, and so
//! is the time that was asked for, or else the refusal has its cause. So whoever asks for all times of a window knows that the query is
//! closed, and `query_answers` settles batches in this way. Several calls for one query are told together by `AsksOn`, and with the
//! claims that are freed before them by `AsksFreed`.
//!
//! `begin` is told which points are going to be asked for ([`Wanted`]). It reads each entry once, and notes where the entry stands that was
//! recorded for such a point (`src/asked/places.rt`). A strand that came to its end left an entry for each point that it heard, so whoever
//! asks for the points that it asked for finds all of them there: each stands in its chain, and a look-up goes along the first 32 places of
//! one. Only when a point is asked for which no entry was noted, a memo makes an index of the cells that the entries of the batch say, by
//! signal and first time. By its type such an index has these cells and no others. With n entries in the end:
//! - an entry takes a few steps to be read by `begin`, and a look-up of the point for which one was noted takes as many, whatever n;
//! - an entry that is noted takes a few numbers of memory, and any other none;
//! - the first other point takes O(n log n) steps, once, and from then on each other look-up and each entry that is added O(log n);
//! - a call that finds nothing starts a strand, and takes a step for each shard besides.
//!
//! [`Said::read`] notes of shards where their entries stand, for every point, and counts how many points each query filled. Threads may
//! read several shards side by side: [`Said::append`] joins what they noted, and [`filled_by`] adds up the counts of all parts. The
//! counts are promised (`HaveCounted`). Of the places nothing is believed, since the entry itself says what it was recorded for. Claims
//! that are freed are no fills, so the counts hold of the memo that `begin_with` makes too. An entry takes a few steps; a fill after one
//! for another query takes O(log q) steps for q queries.
//!
//! [`has_heard`] says of a shard whether all that it evaluated has heard its children, as far as entries say that were recorded for
//! these very points. It changes nothing, so threads may look at several shards side by side, by the places of all ([`Said`]). With p
//! pins in all, of the fills of the shard, it takes O(p) steps.
//!
//! A call that is refused memory may give up the shards: the memo is empty from then on.
//!
//! ```
//! let mut memo = begin(alloc, shards, &Wanted::all())?;
//! let mut charge = 0;
//! match reach(&mut memo, design, query, time, &mut charge)? {
//!     Some(cell) => println!(rt; "{}", cell.value)?,
//!     None => println!(rt; "more than {} evaluations", query.budget)?,
//! }
//! let shards = memo.into_shards();
//! ```

mod cells;
mod fill_counts;
mod heard;
mod memo;
mod places;
mod reading;
mod said;
mod wanted;

pub use fill_counts::{FillCounts, count_fills, filled_by};
pub use heard::has_heard;
pub use memo::{Memo, begin, begin_with, reach};
pub use places::Places;
pub use said::Said;
pub use wanted::Wanted;
