//! The loop of a session: a script is read a block at a time and served a unit at a time, and a journal is written beside the replies,
//! and the dumps that the script asks for.
//!
//! [`serve_session`] is a session of a script, and [`serve_work`] one of a single batch without a script. Both create the journal,
//! write its head and serve over empty stores. The first finishes the journal; behind the other [`finish_journal`] does. What a unit
//! comes to is the matter of `unit_answers`, and who runs the strands of a batch that of a `worker_gate::Crew`: no handle appears here.
//! What a session means, whole or broken off, is `session_meaning`; `specs/Halting` says what stands in the journal, in the replies and
//! of the dumps at each end, and `specs/Outside` what the files, the source and the sink did.
//!
//! What callers may rely on:
//!
//! - After `Ok` the replies, the journal and the dumps are those of the session of exactly the script's bytes, the files that were
//!   created are the journal and after it the dumps, and nothing that the call created is unfinished.
//! - The replies to a unit are written before its section. A question for a wave where a signal is stuck has a second section, that of a
//!   memo of its own, directly after the first; its entries are in no count.
//! - The replies of a batch and a section are written in pieces of some 32 KiB. Of a shard with 16,384 entries and more, the workers of
//!   the crew make the lines, where there are several, of at most 262,144 entries at a time. So a section's text is never held as a
//!   whole. The text of a dump is made whole before its file is created; the file is finished before the reply.
//!
//! Both are written before the script is read again, so whoever waits for a reply before the next line is sent is served. No clause says
//! so: it is promised that what was read goes at most a block beyond the units that were served, and a test of `backsim` shows the rest.
//!
//! What a failure leaves: where the journal is not created, everything is as it was. After that, what stands of the replies, of the
//! journal and of the dumps is the whole of the units that were served before, and a beginning of the next one's; a journal that a
//! halt left is not finished, nor is a dump that could not be written or finished. Nothing is taken back, and nothing is written after
//! a failed write.
//!
//! Costs: a block of 4,096 bytes of the script at a time, the stores (as many cells as there is room for, in each shard), and for a unit
//! what answers it, its entries and its replies among it. The replies of a batch are kept for a dump, moved and not copied, and given up
//! before the next batch is answered. What the last stuck signal reaches is kept, a flag for each signal, from the first question on that
//! asks which signals these are, and the links from signals to their readers, one for each pin; so further questions about the same signal
//! do not look for it again (`query_answers::stuck`). The time beside the answers is in proportion to the bytes that are read and written;
//! that of a dump to its changes, with the sorting of them by time. Where a session ends well its stores are handed back.
//!
//! ```text
//! let service = Service { alloc, design: &design, sizes: Sizes { shards: 4, cells: 16_384 } };
//! serve_session(&crew, &service, &["netlist"], "journal", &mut files, &mut queries, &mut out)?;
//! ```
#![tactic(auto)]

mod counting;
mod desk;
mod dump;
mod halt;
mod journal;
mod question;
mod script;
mod section;
mod service;
mod session;
mod stop;
mod stores;
mod tell;
mod unit;
mod work;

pub use halt::{Halt, JournalHalt, Unfinished};
pub use journal::finish_journal;
pub use service::Service;
pub use session::serve_session;
pub use stop::{JournalStop, ScriptStop, UnitStop};
pub use work::serve_work;
