//! The query script: what a line says, and which lines make a batch.
//!
//! A script is a text of lines. `wave` and `at` lines ask for the values of a signal. They are the **items** of batches, as is a
//! line of no known form, which gets a reply too. `go` runs the pending batch. `trim`, `stats` and `vcd` are served alone, and so
//! are the **questions** `first`, `why` and `stuck`, each of which makes a batch ([`Question`]). A script is thus a list of
//! **units**, each of which is served as a whole. `specs/Lines` says what a line means, and `specs/Units` where a batch ends.
//! `specs/Laws` says what holds of all units: they are the lines' requests in order, and each batch is within its limits.
//! `specs/Fit` says what the code that serves units may assume: the items of a batch are on different lines, every name in a unit
//! follows the rules, and the units given so far are those that the lines ended so far complete (`completed_units` in
//! `specs/Reading`).
//!
//! The script comes byte by byte, and may stop at any byte. `ScriptReader` takes one byte after another, and gives each unit as
//! soon as the line that completes it has ended. Its parts can be used alone: `LineCutter` cuts a stream into lines, `read_line`
//! reads one of them, and `Batcher` gathers items into units. Whatever bytes follow, the units given so far are the first of the
//! whole script's (`HasRead` in `specs/Readers`).
//!
//! ```text
//! let mut reader = ScriptReader::new(alloc, horizon);
//! for byte in script {
//!     for unit in reader.take(*byte)?.into_vec() {
//!         serve(unit)?;
//!     }
//! }
//! for unit in reader.end()?.into_vec() {
//!     serve(unit)?;
//! }
//! ```
//!
//! A byte takes constant time. Memory is allocated only for a line's name, for pending items and for units. A line is read in
//! time linear in its length, and an item is moved into its batch once. `LineCutter` keeps its line in an array of 4,096 bytes,
//! and does not allocate.
#![tactic(auto)]

mod batcher;
mod cutter;
mod laws;
mod line;
mod script;
mod unit;

pub use batcher::Batcher;
pub use cutter::{Cut, LineCutter};
pub use laws::{
    read_units_are_completed, read_units_are_determined, read_units_are_fit, script_units_are_fit,
    units_are_within_limits, units_have_own_lines, units_keep_requests,
};
pub use line::{Asks, Line, Tell, What, Window, read_line};
pub use script::{ScriptReader, read_script};
pub use unit::{Item, ItemList, Question, Unit, UnitList};
