//! Explanations as proofs: their text, and a checker that believes nobody.
//!
//! ```text
//! why n3 6 1
//! cell 2 1 11 1
//! cell 3 2 11 1
//! cell 1 3 11 1
//! end
//! ```
//!
//! The first line claims that the signal `n3` has the value 1 at the time 6. Each `cell` line, `cell SIGNAL START END VALUE`, says
//! that the signal with this number has this value from START on and below END, for one cause. Words are divided by one blank, every
//! line ends with a line feed, and a number is decimal, has no leading zero and is at most 4,294,967,295 (`specs/Spelling`,
//! `texts::fields`).
//!
//! A proof is justified (`specs/Justified`) if each cell line follows from the lines above it by the rules of values and cells: its
//! signal's gate looks at its pins at START, one after another, as far as the first that decides; each pin that it looks at is
//! answered by a base answer (inputs, gates before their least delay, flip-flops before their first shown edge) or by a line above;
//! and the value and the interval come from these answers. At last the claim has to follow from all lines. Forward simulation is
//! not mentioned there, and is never made: a proof is checked in the time of its own lines.
//!
//! What callers may rely on:
//!
//! - [`check_proof`] answers `Yes` only for what forward simulation gives, whoever wrote the text. It answers `Yes` for each justified
//!   proof, `No` with the first line that is not justified for every other proof, and `Bad` with the first line at which no proof's
//!   text goes on for every other text. [`verdicts_are_fixed`] says that no other answer would be right.
//! - [`proof_text`] writes exactly the text that is read, and [`one_proof`] says that it is that of no other proof.
//! - [`justified_proofs_are_true`] is the theorem behind `Yes`, for every circuit.
//!
//! Checking takes O(n log n) for n lines, and a look-up in an ordered map for each pin that is looked at. It holds the lines, 16 bytes
//! each, and an index of them. Writing takes time in proportion to the text.
//!
//! ```text
//! let text = proof_text(alloc, b"n3", 6, Value::One, &cells)?;
//! match check_proof(alloc, &design, &text)? {
//!     Checked::Yes { signal, time, value } => ..   // it is so
//!     Checked::No { line } => ..                   // this line does not follow
//!     Checked::Bad { line } => ..                  // here it stops being a proof
//! }
//! ```
#![tactic(auto)]

mod cells;
mod checker;
mod known;
mod laws;
mod reading;
mod writing;

pub use cells::CellList;
pub use checker::{Checked, check_proof};
pub use laws::{justified_proofs_are_true, one_proof, verdicts_are_fixed};
pub use writing::proof_text;
