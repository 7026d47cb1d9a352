//! The design of a circuit, read from its three files.
//!
//! [`read_design`] reads a netlist, a timing file and a stimulus by their names, in this order. It parses each before it opens the
//! next, and joins them. Every program that takes a circuit begins with this call.
//!
//! Guarantees:
//!
//! - The design is the one that the definitions of the three formats and of their join make of the files' bytes (`specs/Files`,
//!   `design_of_files`).
//! - The first refusal is returned, in this order: the netlist's length, then its first fault; the same for the timing file, and for
//!   the stimulus; then the first row that does not join. No file after a refused one is opened, so a later file never hides a
//!   refusal, even if it is missing (`specs/Stops`).
//! - A fault is returned only if its count rose, or stands at its greatest value. The number of opened files tells which file had
//!   the fault. Nothing else of the files changes (`specs/Changes`).
//! - [`FileRefusal::text`] is the line that reports a refusal (`specs/Texts`).
//!
//! The call holds the text of one file at a time, and what was made of the files before. It takes the time of the readers and of the
//! join.
//!
//! ```text
//! match read_design(rt.alloc(), "c17.bench", "c17.timing", "c17.stim", &mut files) {
//!     Ok(design) => ..                                // the circuit
//!     Err(FilesStop::Refused(refusal)) => ..          // refusal.text(alloc)? says what is wrong, and where
//!     Err(FilesStop::NotOpened(file)) => ..           // the count of file faults rose
//!     Err(FilesStop::Unread(file)) => ..              // the count of read faults rose
//!     Err(FilesStop::OutOfMemory) => ..
//! }
//! ```
#![tactic(auto)]

mod reading;
mod refusal;
mod stop;

pub use reading::read_design;
pub use refusal::{CircuitFile, FileRefusal};
pub use stop::FilesStop;
