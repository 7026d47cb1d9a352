//! The plan of a batch in code: its strands and the shards that they ask, by turns on one thread; and single cells, asked for alone.
//!
//! A [`Plan`] runs the strands of one batch in turns, on one thread. It makes the same calls of a shard (`memo_shards`) as a worker. A
//! turn ([`Plan::turn`]) makes one step of one strand. [`Plan::run_alone`] makes the turns of one strand until it has ended. [`asked`]
//! calls it to ask for one cell: that room has the cells of a batch, for whoever goes on alone once no worker runs.
//!
//! [`run_in_turn`] needs no plan: it runs strands one after another in their own slice, each alone over the shards until it has ended, up to
//! a number of turns or without a limit, and says whether none was refused a point. No other strand holds a point meanwhile, so none waits.
//! Its contract says that each strand has ended with its number and its task, and that the strands claimed and filled as often as the
//! shards recorded it. `worker_gate` begins each batch with it, and ends it so where one worker serves the batch.
//!
//! The model of a plan is the pure machine of `plan_machine`: the list of its strands, including those that wait, and the list of its
//! shards. A turn is the machine's turn, so every theorem on lists of turns holds of the code. A plan's type guarantees that it is sound
//! ([`Plan::facts`]), that one strand is ready unless all have ended, and that the turns that count are bounded. After `run_alone`,
//! `RanAlone` of `plan_machine` holds: each root of the strand is covered, or its refusal is recorded with its cause.
//!
//! In the code a waiting strand is not in the plan's places but in the shard where it waits. A fill or a drop hands it back, and it
//! returns to its place. `specs/inner/Parts.antt` reads the machine's plan from places and shards. Each strand in a place has heard all
//! base answers, and its next step is kept with it (`paused.rt`).
//!
//! A turn that fails for lack of memory leaves the plan as it was. `run_alone` leaves turns of its strand alone (`StopsAlone`): those that
//! were recorded, or one more, in which the strand was refused without an entry. A turn costs what its shard's call costs, and one more
//! step for each strand that is woken. No list is shifted or copied. A strand is changed in its place, and moved only where it waits.
//!
//! ```
//! match run_in_turn(&mut strands, &mut shards, design, Some(1_000))? {
//!     Some(true) => {} // each strand has heard its roots
//!     Some(false) => {} // one was refused a point
//!     None => {} // turns are left
//! }
//! ```
#![tactic(auto)]

mod alone;
pub mod asked;
mod in_turn;
mod paused;
mod places;
mod plan;
mod turns;

pub use alone::Alone;
pub use in_turn::run_in_turn;
pub use plan::Plan;

#[cfg(test)]
mod tests;
