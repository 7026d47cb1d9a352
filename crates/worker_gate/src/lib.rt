//! Workers that serve the strands of one batch together.
//!
//! [`Crew::run`] has 1 to 64 workers, and no more than there are strands. The first turns of a batch are made on the caller's thread, one
//! strand after another in the order of their numbers, each until it has ended: 16,384 turns for each worker that can start, some five
//! milliseconds. So a batch that is done in some tens of milliseconds starts none, and its journal is that of one worker. Where there is
//! one worker or one strand, all turns are made so. No locks are needed. If no strand was refused a point, [`Ran::heard`] is true then:
//! each point that was evaluated has heard its children.
//!
//! Where turns are left, the workers are started, whatever the number of shards; the first runs on the caller's thread. Each takes a
//! strand from the queue of those that are ready and makes its turns, until the strand waits in a shard or has ended; the strands that
//! come out of a claim go into the queue. Each shard stands behind a lock of its own, with the number of its claims and fills, on cache
//! lines of its own: a claim or a fill takes no other lock. Under the lock the shard grants what the strand may do and records it; the
//! strand works out the cell of a fill before that, and does what was granted after it. A strand that has ended goes to its place on the
//! board, which is one lock more. No worker holds two locks, and each tries a lock for some microseconds before it sleeps for it. One that
//! finds no strand ready sleeps at the board, and a push wakes one of those that sleep. Such workers do not know what points have heard. So,
//! once they are joined, as many threads look at the journals side by side. First each reads those of some shards: it notes where the entries
//! stand, and counts how many points each query filled. Then each looks for the fills of some shards: [`Ran::heard`] is true where entries say
//! the cell of each child of each point that was evaluated, as they do where no worker left. What was noted is handed on ([`Ran::said`]), so
//! that settlement need not walk over all entries on one thread. Where the journals are short, one thread looks.
//!
//! What a caller may rely on, under every schedule of the threads:
//!
//! - The counts of the strands add up to the claims and fills that all journals have. The number under a shard's lock is that of its
//!   journal whenever the lock is free; once the workers are joined, the numbers of all shards are added up. The count of a strand that
//!   came back is its charge and its fills. What all others have claimed and filled is counted together, at the first place that is empty.
//! - Each strand that comes back has ended, has the number of its place and the task of the strand that was handed in with that
//!   number, is spent only at its full budget, and its charge and its fills make up its count.
//! - Where the gate is open, every strand comes back.
//! - Where [`Ran::heard`] is true, and each strand was handed in as it was started, the children of each point that was evaluated are
//!   covered by the entries of all journals. Settlement need not visit them then.
//! - Where [`Ran::said`] is there, its counts are those of the fills in all journals, query by query.
//!
//! What is under one lock is not known under another, so a worker tests it: that the shard is there with its number, that it has the
//! claim, that the place on the board is empty. No worker makes one of these tests false; where one is, the worker takes the lock again.
//! At the end it is tested that the counts of the strands add up to what the shards have recorded. Where that were false, the call would
//! not return. So `Crew::run` may wait where workers are started, and no clause says that it returns then, that a worker gets on, or that
//! two workers run at once: the tests of `backsim` show the latter, by gates that hold a worker until another has come.
//!
//! With one worker or one strand nothing is tested, and the functions that make all turns cannot wait (`in_turn.rt`), so they are proved to
//! end: `plan_core` promises that each strand ends with its task, and that the counts add up.
//!
//! [`Crew::lines_of`] makes the journal's lines of many entries by as many threads as there are workers.
//!
//! A [`Crew`] gathers the runtime in which the workers are started, the gate that each passes, and how many there are. A caller that
//! is generic over crews names no handle. [`Workers`] is such a crew. How far a crew gets is up to its gate: strands and claims may be
//! left behind. Settlement finishes what is left, so the answers never depend on the crew.
//!
//! A [`Gate`] is called before each turn of a worker, and within each shard's lock; it says how many turns are made before the workers
//! are started, of which it hears nothing. [`OpenGate`] lets everyone go on. A worker that a gate tells to leave puts its strand back into
//! the queue, and that strand's place stays empty. Where memory runs out, all workers end, and `Crew::run` answers so; the shards are
//! given up.
//!
//! ```
//! let crew = Workers::new(&rt, &OpenGate, 4);
//! let ran = crew.run(alloc, design, shards, strands)?;
//! let strand = ran.strands.strand(0);
//! let shards = ran.shards.into_vec();
//! ```
#![tactic(auto)]

mod begun;
mod board;
mod counts;
mod crew;
mod gate;
mod hearing;
mod in_turn;
mod lines;
mod ran;
mod run;
mod slot;
mod worker;
mod workers;

pub use crew::Crew;
pub use gate::{Gate, OpenGate, Pass};
pub use ran::{CountList, EndedList, Ran, ShardList};
pub use workers::Workers;
