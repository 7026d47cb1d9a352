//! The replies to the items of a script, and their texts.
//!
//! An [`Outcome`] is what becomes of a window that was asked for: the answer, or why there is none. The [`Reply`] to an item is that of its
//! window, whose answer is a waveform, as its maximal runs. The [`QuestionReply`] to a question has a first time, an explanation, whose
//! proof `why_proofs` writes and checks, or a wave with a stuck signal. [`reply_text`] and [`question_text`] write their texts in the
//! format of `specs/Replies`. [`trimmed_text`] and [`stats_text`] write the replies to a trim and to a request for the counts, and
//! [`dump_text`] that to a request for a dump ([`VcdReply`]).
//!
//! ```text
//! let text = reply_text(alloc, &item, &reply)?;
//! ```
//!
//! A text is written once from front to back, in time and memory linear in its length.
#![tactic(auto)]

mod reply;
mod text;

pub use reply::{Explanation, Outcome, QuestionReply, Reply, VcdReply};
pub use text::{dump_text, question_text, reply_text, stats_text, trimmed_text};
