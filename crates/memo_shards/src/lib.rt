//! The shards of the memo: what one batch of queries knows, claims, and writes down.
//!
//! A [`Shard`] has the points of some signals ([`shard_number`]): a bounded store of their cells, a table of the points that are
//! being evaluated with the strands that wait for them, and the journal of what it did in the batch. A strand makes its next step at the
//! shard of its point ([`Shard::step`], [`step_point`]). If it asks for the point, it is told the stored cell, claims the point, or is refused
//! it since its budget is spent; where the point is claimed it can wait there ([`Shard::park`]). A point that it claimed it fills or gives
//! up, and those that waited come back. A strand in hand is moved only where it waits.
//!
//! A step has two halves, which a caller that holds a lock on the shard makes one after another. The shard grants what the strand may do
//! and records it ([`Shard::grant`]), and the strand does it ([`follow`]): it hears a cell, takes a claim or ends one, and those that
//! waited for a filled point hear its cell. The cell of a fill is worked out before ([`request_of`]).
//!
//! The strands are those of `demand_points`. Who calls is a worker (`worker_gate`), under the shard's lock, or a plan (`plan_core`).
//!
//! Contracts see a shard as its number, the state and journal of `plan_machine`, and the strands that wait, each with its point
//! (`specs/KeptShards.antt`). `specs/Steps.antt` says what a step comes to, by `specs/Asks.antt` and `specs/Ends.antt`, and
//! `specs/Grants.antt` what its halves do. A shard is of the
//! batch that its parameter B names. By its type, its journal is legal from the cells that it held as the batch began, its state is the
//! replay of the journal, each stored cell is right, and each strand that waits asks for a claimed point of the shard. [`Shard::facts`]
//! hands this out.
//!
//! A call that is refused memory leaves the shard and the strand as they were. After a claim was granted, `follow` may be refused: then
//! the shard has the claim, and the strand has not. An ask, a fill, `park` and `spend` may be refused; a drop
//! and `free_claims` take none, since a claim takes the room in the journal that its end needs. With n cells and claims an ask takes
//! O(log n) steps; a fill takes as many, and one for each strand that waited.
//!
//! ```
//! let next = strand.next_step(design);
//! match shard.step(&mut strand, design, next)? {
//!     Step::Heard | Step::Holds | Step::Refused => {}
//!     Step::Taken => shard.park(strand, p)?, // it comes back as the claim of p ends
//!     Step::Filled(woken) | Step::Dropped(woken) => ready.append(woken),
//! }
//! ```
//!
//! Or in halves:
//!
//! ```
//! let request = request_of(&strand, design, next)?;
//! let grant = shard.lock(rt).grant(&strand, request)?;
//! let step = follow(&mut strand, design, grant)?;
//! ```
#![tactic(auto)]

mod grant;
mod request;
mod room;
mod shard;
mod steps;
mod wake;

pub use grant::{Grant, follow};
pub use request::{Request, request_of};
pub use shard::{Shard, know_all, shard_number};
pub use steps::{Step, step_point};
