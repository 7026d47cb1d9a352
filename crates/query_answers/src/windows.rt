//! Answers to the queries of a batch: verdicts, strands for the pieces of windows, and settlement.
//!
//! [`verdict_of`] returns what becomes of a window that a line asks for, and [`verdicts_of`] of the window of each item of a batch.
//! [`strands_of`] makes the strands of a batch's queries, one for each piece of each window. A caller runs these over the shards
//! (`plan_core`, `worker_gate`), completely or in part. Then [`settle`] alone answers every query:
//! - It frees the claims that are left.
//! - For each query in order it visits the points that the query had filled before settlement. An `Asking` (`src/asking.rt`) finds the cell
//!   of each looked pin among the base answers and the cells that entries of the batch say, or asks for it by a strand alone. If `heard` is
//!   true, the visits are left out, and the points are only counted: the caller knows that each evaluated point has heard its children.
//!   Where the caller hands over what was noted of the entries (`Said` of `plan_core::asked`), it is not noted and counted again.
//! - For each query in order it walks the window from cell to cell in the same way, and gathers its runs.
//!
//! The outcome of a query that is refused meanwhile is its budget, and that of any other its waveform (`specs/windows/Settlement`). The
//! charge of a strand at its start is the number of the query's fills in the batch so far, at most its budget. No strand is started for a
//! query that was refused (`AsksOn` of `plan_core::asked`). If memory runs out, the shards are dropped.
//!
//! The cost of settlement grows with what the batch recorded, and not with the number of its queries. Let n be the final number of entries
//! in the journals:
//! - Settlement reads the journals twice as it begins: once to note the places of the entries, unless these are handed over, and once
//!   for the points that each query filled, unless these are only counted and the counts are handed over. After that it reads only the
//!   entries that a strand added, once the strand has run.
//! - It looks up one cell for each looked pin of each visited point, and one for each cell of each window. A strand that came to its end
//!   left an entry for each of these points, and such an entry is found by hashing. If all strands came to their ends, a look-up therefore
//!   takes a few steps, whatever n.
//! - If `heard` is true, no point is visited, and pins are not looked up. So the first scan, if there is one, notes only entries for
//!   points in the windows, with few others (`Wanted::windows`), and the second only counts the fills of each query.
//! - The first look-up of a point without a noted entry makes an index of all cells, in O(n log n) steps. From then on such a look-up
//!   takes O(log n) steps, and so does each added entry.
//! - A look-up that finds nothing starts a strand. The strand adds at least one entry, and takes a step for each shard.
//! - The points of a query are found in O(log q) steps among q queries, once for each fill and once for each query. Where fills are only
//!   counted, a fill takes so many steps only if the one before it was for another query.
//!
//! For q queries, f fills, p looked pins and c cells of windows, settlement takes O(n + p + c + f log q) steps if all strands came to their
//! ends, and with s shards at most O((n + p + c) log n + s n). It allocates two or three numbers for each noted entry, the points or a
//! count for each query, the index if one is made, and the runs. `strands_of` takes a step for each piece, and `verdicts_of` one look-up
//! by hashing for each item.
//!
//! ```
//! let strands = strands_of::<B>(alloc, queries)?;
//! let ran = crew.run(alloc, design, shards, strands)?;
//! let Settled { outcomes, shards } = settle(alloc, design, ran.shards.into_vec(), queries, ran.heard, ran.said)?;
//! ```

mod answers;
mod fills;
mod settlement;
mod strands;
mod verdicts;
mod visits;

pub use settlement::{Settled, settle};
pub use strands::strands_of;
pub use verdicts::{verdict_of, verdicts_of};
