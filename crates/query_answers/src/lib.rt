//! The answers to the queries and questions of a script, asked of the memo.
//!
//! Each room answers one kind, over a design and the shards of a memo (`memo_shards`):
//!
//! - [`windows`] answers the queries of a batch by their waveforms: verdicts, strands for the pieces of windows, and settlement.
//! - [`first_times`] answers when a signal first has a value.
//! - [`explanations`] answers why a signal has its value at a time, by a proof that whoever has the circuit can check.
//! - [`stuck`] answers the waveform of a signal where another is stuck, of two memos.
//!
//! What callers may rely on is the same of each. The answer is right, and the query is closed; or the outcome is its budget, and the
//! entries hold the cause. The journals stay legal, and no claim is left. Each strand that is started here serves a point that the query
//! needs, is charged with what the query filled so far, and none is started after a refusal.
//!
//! All rooms ask for cells by an `Asking` (`src/asking.rt`), which owns the memo and knows what the query is charged. It asks by
//! `plan_core::asked`, where a strand runs alone, so no room starts a thread. Only a batch has strands that others may run before:
//! `windows` makes these, and settles what is left of them. No other room stands on another.
#![tactic(auto)]

mod asking;
pub mod explanations;
pub mod first_times;
pub mod stuck;
pub mod windows;
