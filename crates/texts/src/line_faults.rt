//! Files that are read line by line, up to the first line at fault.
//!
//! A [`LineReader`] is what is known of a file after some of its lines. It says
//! which form the bytes of a line have, which cause a line has after the lines
//! before it, and how it takes one line more. [`read_lines`] hands it the lines
//! of a text, after the rules of this crate's root, and stops at the first line
//! with a cause. This line and its cause are the [`LineFault`] of the file,
//! whatever comes after. Which forms and causes there are is for each file's
//! crate to say.
//!
//! Where memory runs out, the fault is at line 0 and says nothing of the text.
//! `?` makes this fault of each failed allocation, with the cause that a
//! [`LineCause`] has for it.
//!
//! `Faults` in `specs/line_faults` says what the first line at fault is,
//! `Reading` what a reader answers. `Rows` numbers what the lines of a file
//! give.
//!
//! Reading is one walk over the text, and takes no memory but the reader's.
//!
//! ```text
//! let reader = read_lines(alloc, Reader::new(alloc), text)?;
//! ```

mod causes;
mod reader;

pub use causes::{LineCause, LineFault, fault};
pub use reader::{LineReader, read_lines};
