//! The answer to a question for the waveform of a signal where another is stuck, asked of two memos.
//!
//! [`stuck_wave`] answers one query of the circuit in which one signal, the site, has the same value at all times. Where a signal is free
//! of the site, that is where the site is not in its cone, its values and its cells are those of the circuit itself: so what is free is
//! asked of the session's own memo, in a batch that names the site, and what is stored there is told again. All else is asked of a memo
//! of its own, which is one shard, begins with no cell, and ends with the answer. Its journal is handed out beside the shards.
//!
//! The budget holds for each of the two memos by itself. Where one of them would take more evaluations, the query is refused, that
//! memo's entries hold the cause, and neither is asked for more. Each strand counts for the query's number and is charged with what the
//! query filled so far in the strand's memo (`specs/stuck/Asks`).
//!
//! The design in which the site is stuck has all but that in common with the session's (`Design::hold`), so no line copies the circuit. A
//! question is asked of an [`AskedDesign`], which works out what its site reaches, and so what is free of it, when it asks for the first
//! point that needs an evaluation: a question with an empty window, or one for which base answers suffice, as for the site itself, does
//! without. That takes a flag for each signal, and looks once at each pin that reads what the site reaches (`Design::reached`). It is kept
//! ([`LastSite`]), so further questions about the same site only look their points up. The first time the links from signals to their
//! readers are made, one for each pin (`Design::with_readers`), and these are kept for all sites. Beside that a question makes the store
//! of its own memo, and each point that it evaluates costs what it costs elsewhere: O(log n) steps with n stored cells and entries.

mod asked;
mod both;
mod root;
mod step;
mod wave;

pub use asked::{AskedDesign, LastSite};
pub use wave::{StuckWave, stuck_wave};
