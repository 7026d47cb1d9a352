//! The fields of a line that is written to be read back: words, numbers and
//! values.
//!
//! A **field** is a number behind one blank. Numbers are decimal, without a
//! leading zero, and at most 4,294,967,295. A **value** is one of the bytes
//! `0`, `1`, `x` and `z`. So a field has one text, which [`push_field`] and
//! [`write_field`] write, and [`field_of`] reads nothing else.
//!
//! [`push_field`] appends a field to a text. [`write_field`] puts one in front of
//! what stands in a buffer that is filled from its end, as itoa does with digits:
//! a line that is written so is appended to a text at once. [`write_number`] does
//! so with a number behind any byte.
//!
//! [`after`], [`field_of`] and [`value_of`] read what stands at the front of
//! some bytes, and give the bytes behind it; `None` where it does not stand
//! there. `specs/fields/Spelling` says how a number is written, and
//! `specs/fields/Reading` what is read. The other text files of the simulator,
//! whose words may stand behind any blanks and whose numbers may begin with
//! zeros, are read by the rules of this crate's root.
//!
//! A call takes time in proportion to what it reads or writes. Only
//! [`push_field`] takes memory.
//!
//! ```text
//! let (signal, rest) = field_of(after(text, b"cell")?)?;   // cell 2 ..
//! ```

mod reading;
mod writing;

pub use reading::{after, field_of, value_of};
pub use writing::{push_field, write_field, write_number};
