//! The text of a journal: what a memo did, line by line, so that a reader can check it.
//!
//! ```text
//! journal shards 1 cells 16384
//! batch 1
//! shard 0
//! claim 1 7 2
//! fill 1 7 2 1 11 1
//! end
//! ```
//!
//! A journal begins with a head, the number of shards and the capacity of each. Then comes a [`Section`]
//! for each batch of queries and each trim of the memo, and a held one for each memo of a circuit in which a
//! signal is forced. A section has a line for each shard, and after it a line for each [`Entry`] of that shard:
//!
//! | entry | line |
//! |---|---|
//! | `Told` | `told QUERY SIGNAL TIME START END VALUE` |
//! | `Claimed` | `claim QUERY SIGNAL TIME` |
//! | `Filled` | `fill QUERY SIGNAL TIME START END VALUE` |
//! | `Evicted` | `evict SIGNAL START` |
//! | `Dropped` | `drop QUERY SIGNAL TIME` |
//! | `Spent` | `spent QUERY SIGNAL TIME HELD` |
//!
//! Numbers are decimal with no leading zero and at most 4,294,967,295; VALUE is `0`, `1`, `x` or `z`; words
//! are divided by one blank, and every line ends with a line feed. `specs/Spelling` is this grammar, as the
//! text of a value, and `specs/Written` says which sections have a text: START lies below END, which is at
//! most 2,000,002; the section's number is at least 1; a section has 1 to 64 shards, and a held one has 1.
//!
//! What callers may rely on: [`head_text`], [`entry_text`] and [`push_entry`] write exactly the lines of this
//! grammar. A section is written as a whole by `session_loop`, a piece at a time. [`read_section`] reads exactly
//! the section whose text stands at the front of the bytes, and nothing only where no section's text stands
//! there. [`one_section`] and [`one_journal`] say that no text is that of two. Whether the entries are legal
//! is not this crate's matter: every list of entries is written and read.
//!
//! Numbers and values are written and read by `texts::fields`. Writing and reading take time in proportion to
//! the text, and memory for the result alone.
//!
//! ```text
//! push_entry(&mut text, &Entry::Claimed { q, p })?;
//! let read = read_section(alloc, &text)?;     // Some((section, len))
//! ```
//!
//! [`Entry`]: journal_meaning::Entry
#![tactic(auto)]

mod laws;
mod reading;
mod sections;
mod writing;

pub use laws::{one_journal, one_section};
pub use reading::read_section;
pub use sections::{EntryList, EntryLists, Section, SectionKind};
pub use writing::{entry_text, head_text, push_entry};
