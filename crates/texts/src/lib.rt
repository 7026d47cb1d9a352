//! What the texts of the simulator share: owned text, the rules of its text files, fields of lines, and files read up to their first fault.
//!
//! Nearly every crate that allocates returns [`OutOfMemory`] when an allocation fails, and many keep names. This crate therefore stands
//! below all others but those of values and of what is meant.
//!
//! - [`Text`] is owned bytes, for the name of a signal or of a file. Its model is the list of its bytes. Texts compare as their bytes do.
//! - [`OutOfMemory`] is the error for a failed allocation. The operator `?` converts the errors of std's allocator to it.
//! - The functions at the root are the rules of text files, which follow.
//! - [`line_faults`] reads a file line by line by these rules, up to the first line at fault.
//! - [`fields`] writes and reads the lines that the simulator writes to read them back.
//! - `specs/Text` defines the rules. `specs/Made` is a file: its name and its bytes; sessions and the files of `backsim_io` use it.
//!
//! A text is a list of bytes. A **line** ends at a line feed; bytes after the last line feed are a line too. A **comment** runs from `#` to
//! the end of its line, and `content` is what stands before it. Space, tab and carriage return are **blanks**, so a line may end in a
//! carriage return and a line feed. The **words** of a line are its longest runs of bytes that are no blanks. The **tokens** of a line are
//! read in the same way, except that each of the marks `(`, `)`, `,` and `=` is a token of its own. A **name** is one or more bytes from 33
//! to 126 that are neither marks nor `#`. A **number** is one or more decimal digits; leading zeros are accepted.
//!
//! Which words make a line of which file is for the readers above to say. They go over a text with `next_line`, over the words of a line's
//! content with `next_word`, or over the tokens of a line with `next_name` and `next_mark`, which end at a comment. They test a word with
//! `is_name` or `read_amount`:
//!
//! ```text
//! let (line, later) = next_line(text);
//! let (keyword, rest) = match next_word(content(line)) { .. };
//! match read_amount(word, 1_000_000) { Amount::Within(value) => .., .. }
//! ```
//!
//! The rules take no memory: each call gives parts of the slice that it was given. A call reads each byte up to the end of its answer a
//! fixed number of times, and at most some hundred bytes after that, so a walk over a text takes time in proportion to its length, however
//! it is cut into words, and to the number of its lines.
//!
//! A copy of a [`Text`] takes time and memory linear in its bytes. No other call on one allocates.
//!
//! ```text
//! let name = Text::from_bytes(rt.alloc(), b"G17")?;
//! assert!(name.bytes() == b"G17");
//! ```
#![tactic(auto)]

mod byte;
pub mod fields;
mod line;
pub mod line_faults;
mod number;
mod out_of_memory;
mod text;
mod token;
mod word;

pub use line::{content, next_line};
pub use number::read_amount;
pub use out_of_memory::OutOfMemory;
pub use text::Text;
pub use token::{has_no_token, next_mark, next_name};
pub use word::{is_name, next_word};

/// A word read as a number of any length, against a limit.
#[derive(Clone, Copy, Debug, PartialEq, Eq)]
pub enum Amount {
    /// The word isn't made of digits alone.
    NoNumber,
    /// The number is above the limit.
    Above,
    /// The number is this one, at most the limit.
    Within(u32),
}
