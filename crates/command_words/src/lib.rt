//! Reads the words of the command line.
//!
//! Words are read from left to right. Before the first `--`, a word `--workers`,
//! `--shards`, `--cells` or `--work` is an option and the next word is its value.
//! `--workers=V` has the value V. Any other word there that begins with `-` is
//! refused, except the single `-`, which is a name. The first `--` is skipped, and
//! every word after it is a name. Options and names may come in any order. An
//! option is refused if it has no value or comes twice. A value is refused unless
//! it has one to ten digits and is in its range.
//!
//! There are two forms. Without `--work` there are exactly four names, and
//! [`read_words`] returns a `Session`. With `--work N` there is exactly one name
//! and neither `--shards` nor `--cells`, and it returns a `Workload`.
//!
//! The definition `words_of` in `specs/Words` says this by recursion over the
//! words. The parser is `clap`, with the command in `specs/inner/Command`: four
//! options that each take one text, and one positional that takes all names. This
//! crate refuses what `clap` accepts besides: a value that is empty or no number, a
//! number out of range, another count of names, `--shards` with `--work`.
//!
//! ```text
//! match read_words(rt.alloc(), &words)? {
//!     Some(Words::Session { netlist, workers, .. }) => ..
//!     Some(Words::Workload { number, .. }) => ..
//!     None => ..                          // neither form
//! }
//! ```
//!
//! Reading allocates the command and its matches. The result borrows its names from
//! the words.
#![tactic(auto)]

mod command;
mod form;
mod laws;

pub use form::read_words;
pub use laws::{any_order, one_word_or_two};

/// The request of the words. The names are the words themselves.
#[derive(Clone, Copy, Debug, PartialEq, Eq)]
pub enum Words<'a> {
    /// A session over four files.
    Session {
        netlist: &'a str,
        timing: &'a str,
        stimulus: &'a str,
        journal: &'a str,
        workers: u32,
        shards: u32,
        cells: u32,
    },
    /// The workload with a number.
    Workload {
        number: u32,
        journal: &'a str,
        workers: u32,
    },
}
