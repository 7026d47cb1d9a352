//! The plan of a batch, as a pure machine: strands that ask for points, shards that answer them, and one turn of a strand.
//!
//! A plan is a value (`specs/Plans`): a list of strands, including those that wait, and a list of shards, each a state and a journal
//! (`journal_meaning`).
//!
//! - `specs/Strands` says what a strand is, which step is its next ([`Next`]), and what each step makes of it. `specs/StrandLaws` has the
//!   laws of strands, which are the contracts of functions in `src/strand.rt`.
//! - `specs/Steps` says which step the turn of a strand is: it is told a cell, claims a point, waits, is spent, fills a point, drops one,
//!   or is not ready. [`Turned`] is its result. `specs/Turns` defines the plan after one turn (`turn`) and after a list of turns in any
//!   order (`run`).
//! - `specs/Shards` defines a shard after an entry, by the table of the journal, with the eviction before a fill.
//! - `specs/Sound` says what holds of a plan at every moment, and what that means to a reader. `specs/Bounds` bounds the number of turns.
//! - `specs/Laws` states the theorems, over every plan, strand number and list of turns. They are the contracts of the functions below,
//!   which do nothing.
//!
//! A plan keeps no lists of waiting strands. A strand that waits is marked, and its next step is to ask for the point. A turn is therefore
//! a function of the plan alone, and code may keep its waiting strands anywhere.
//!
//! How code is bound to the machine: the crate that keeps a plan gives it a model whose value is a plan. It promises of its `turn` that the
//! new value is `turn batch old number`. `specs/Parts` and `specs/KeptPlans` read a plan back from what code keeps: a place for
//! each strand, with a gap if the strand waits, and shards that hold the waiting strands. Their lemmas say what each kind of step changes
//! of these parts. The crates below promise their parts in the machine's terms: a strand's steps are those of `specs/Strands`, and a
//! shard's are `recorded` and `filled_shard`. Every theorem then holds of the code, in any order of turns.
//!
//! The cost of a plan: with budgets of B in sum, gates of at most F pins, n strands and windows of L times in sum, every schedule makes at
//! most `B * (F + n + 2) + L + 2 * n` turns that are not `NotReady`.
//!
//! An example: signal 1 is a buffer, and strands 0 and 1 ask for its values at the times 5 and 6 of one cell. The schedule 0 1 0 1 makes
//! four turns: Claimed, Claimed, Filled and Filled. The second fill finds the cell stored, and moves it to the front. `proofs/Examples`
//! computes this example and others.
#![tactic(auto)]

ghost use Rattle.plan_machine.specs.Laws.{NewIsSound, TurnsKeepSound, RunsKeepSound, SoundIsSafe, ReadyStrandsMove, EndsLetOut, IsNeverStuck, NoneReadyEnds, TurnsAreFew, TurnsAreBounded, TurnsAdd, RunsAdd, TasksStay, AloneBegins, AloneGoes, AloneEnds, SettlesBatch, SettledAnswers};

mod strand;

pub use strand::{Next, strands_ask_what_is_needed, strands_stay, waits_are_earlier};

/// The result of one turn of a strand.
#[derive(Clone, Copy, Debug, PartialEq, Eq)]
pub enum Turned {
    /// It heard a stored cell.
    Told,
    /// It claimed the point that it asked for.
    Claimed,
    /// Another strand has claimed the point, and the strand waits there.
    Waits,
    /// The budget has no room for a claim. The strand asks for nothing more, and drops what it holds.
    Spent,
    /// The top of its stack is evaluated and stored.
    Filled,
    /// The top of its stack is given up.
    Dropped,
    /// The strand waits or has ended, or there is none with this number. Nothing changed.
    NotReady,
}

/// A new plan is sound.
pub fn new_is_sound()
    ensures { NewIsSound }
{}

/// Each turn of a sound plan leaves it sound, and so does each list of turns.
pub fn turns_keep_sound()
    ensures turn { TurnsKeepSound }
    ensures run { RunsKeepSound }
{}

/// What soundness says of claims, stored cells, fills and evictions.
pub fn sound_is_safe()
    ensures { SoundIsSafe }
{}

/// A turn is NotReady exactly when no strand has the number or the strand is not ready. Then nothing changes.
pub fn ready_strands_move()
    ensures { ReadyStrandsMove }
{}

/// At a fill all strands that wait at its point hear the answer and are woken. A drop wakes them too. No other strand changes.
pub fn ends_let_out()
    ensures { EndsLetOut }
{}

/// In a sound plan a strand is ready, unless all have ended.
pub fn never_stuck()
    ensures ready { IsNeverStuck }
    ensures none { NoneReadyEnds }
{}

/// The number of turns of a schedule that are not NotReady is bounded.
pub fn turns_are_few()
    ensures left { TurnsAreFew }
    ensures bounded { TurnsAreBounded }
{}

/// A turn adds entries for its strand's query at the ends of the journals. Each strand keeps its query and its budget.
pub fn turns_add_entries()
    ensures turn { TurnsAdd }
    ensures run { RunsAdd }
    ensures tasks { TasksStay }
{}

/// A strand that runs alone in a plan without claims never waits. It ends with its roots covered, or refused for its budget.
pub fn strands_run_alone()
    ensures begins { AloneBegins }
    ensures goes { AloneGoes }
    ensures ends { AloneEnds }
{}

/// Settlement answers every query of a batch: the query is closed, or was refused once with its cause.
pub fn settlement_answers()
    ensures settles { SettlesBatch }
    ensures answers { SettledAnswers }
{}
