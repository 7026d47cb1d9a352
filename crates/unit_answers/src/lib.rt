//! The units of a script, served over the memo: a batch or a question is answered, or the stores are trimmed.
//!
//! Between two units the memo is one [`cell_store::CellStore`] for each shard. [`answer_batch`] opens the shards over them under the
//! batch's name, has a crew run the strands, settles, and closes the shards. It returns the replies, the journal of each shard, and the
//! stores. [`answer_question`] opens and closes the shards in the same way, and asks for one cell after another, without a crew. The
//! question is when a signal first has a value, why it has its value at a time, by a proof, or which wave it has if another signal is
//! stuck; a room of `query_answers` answers each. The last asks the stores for what is free of the stuck signal, and a second memo for
//! all else. [`trim_stores`] evicts the least recent cells. `specs/Done` says what each call returns. [`dump_waves`] writes the waves in
//! the replies to a batch as a dump (`vcd_answers`), and asks nothing.
//!
//! Guarantees, for every crew: each journal is legal from the cells that its store held, each item and each question has a right reply, and
//! the stores hold what the journals lead to, so the next unit can be served over them. What the crew left is known too (`specs/Crewed`):
//! it had a strand for each piece of each window, and those that came back have ended. The counts of all strands add up to the claims and
//! fills of the crew's journals, which settlement extended. With an open gate all strands came back. If a name is no signal or a window
//! ends after the horizon, nothing is asked and the journals are empty. If memory runs out, the stores are dropped.
//!
//! No cell and no journal is copied. A batch takes the time of its strands and its settlement, and one step for each item and each shard. A
//! question for a first time or an explanation takes one look-up of its name, a step for each shard, and the time of its walk
//! (`query_answers`). One for a wave with a stuck signal takes also what is worked out of that signal, unless the question before was about
//! the same one: so [`answer_question`] is given a `query_answers::stuck::AskedDesign`, which keeps it. A trim takes O(log n) steps for
//! each cell that it removes from n.
//!
//! ```text
//! let done = answer_batch(&crew, alloc, &design, &items, sizes, stores)?;
//! let mut asked = AskedDesign::new(&design, None);
//! let answered = answer_question(alloc, &mut asked, &question, sizes, done.stores)?;
//! let trimmed = trim_stores(alloc, &design, 100, sizes, answered.stores)?;
//! ```
#![tactic(auto)]

mod asked;
mod batch;
mod dump;
mod question;
mod replies;
mod run;
mod sizes;
mod trim;

pub use batch::{BatchDone, answer_batch};
pub use dump::{Dump, dump_waves};
pub use question::{QuestionDone, answer_question};
pub use sizes::Sizes;
pub use trim::{TrimDone, trim_stores};
