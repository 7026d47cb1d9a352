//! The meaning of a session: which replies to the units of a script are right, and which journal and dumps come with them.
//!
//! A session serves the units of a script one after another, over a memo whose shards keep cells from unit to unit. It writes two texts
//! that only grow, the replies and the journal, and up to three files, its dumps. A dump has the waves of the last batch before it.
//!
//! - [`Verdict`] is what becomes of a window that a line asks for, and `specs/Verdicts` gives that of each item and question.
//!   `specs/Replies` says which outcome of a window is right, and which reply to an item, over the entries of its batch.
//! - `specs/Written` is how sections are written into the journal: numbered, each by its kind.
//! - `specs/Dumps` is what a dump shows of a batch: a wire, as `vcd_answers` defines it, for each wave in the replies.
//! - `specs/Questions` says what a question asks and which reply to it is right, by its kind: `specs/FirstTimes`, `specs/Explanations`, and
//!   `specs/StuckSignals`. The last needs the entries of two memos: the session's memo, which is asked only for what is free of the stuck
//!   signal, and a second memo.
//! - `specs/Session` is a session, as the list of the served units. Each kind of unit is a case, which says what one such unit adds to the
//!   session; its clauses are fields. A request for a dump adds a file, or the reply says why not: the name is taken, there was no batch,
//!   or three dumps were made.
//! - `specs/Broken` is a session that stopped early: some units are whole, and of the next one a beginning was written. A section begins
//!   only after all replies of its unit. Only the last dump may be incomplete, and a session may break off in a dump, before the reply.
//! - `specs/OneJournal`: the journal is the text of the session's sections, and of no others.
//! - `specs/Whole` is the session of a whole script, with the four promises. `specs/Ample`: every query whose budget is at least its need
//!   has its wave. `specs/Shown`: each dump shows the waves of the last batch before its line, and reading it gives exactly these.
//!   `specs/Again`: a point is evaluated again only after the eviction of its cell. `specs/Accepted`: each explanation is a proof that the
//!   checker accepts.
//! - `specs/Laws` holds theorems on every session: its lists are legal, and the session of a script is whole, by one law for each promise.
//!   They are the contracts of the functions below, which do nothing.
//!
//! A verdict is a few numbers, which are copied.
#![tactic(auto)]

ghost use Rattle.session_meaning.specs.Laws.{SessionsAreLegal, EnoughBudgetIsServed, EnoughBudgetsAreServed};
ghost use Rattle.session_meaning.specs.Laws.{DumpsShowOwnWaves, SessionsAreFrugal, ExplanationsAreAccepted, SessionsKeepPromises, SessionsHaveOneJournal, SessionsAreWhole};

use journal_meaning::Query;
use query_lines::{script_units_are_fit, units_have_own_lines};

/// What becomes of a window that a line asks for: a query is asked, or none.
#[derive(Clone, Copy, Debug, PartialEq, Eq)]
pub enum Verdict {
    /// The query of the line. Its window ends no later than the horizon.
    Ask(Query),
    /// No signal has the name.
    Unknown,
    /// A signal has the name, but the window ends after the horizon.
    Past,
}

/// In a session each shard's lists are legal, each from the cells that the earlier lists leave.
pub fn sessions_are_legal()
    ensures { SessionsAreLegal }
{}

/// A query of a batch whose budget is at least its need is replied to by its wave, if nothing was evicted or the needed cells fit.
pub fn enough_budget_is_served()
    ensures { EnoughBudgetIsServed }
{}

/// The same holds in every batch of the session of a script.
pub fn enough_budgets_are_served()
    ensures { EnoughBudgetsAreServed }
{
    units_have_own_lines();
}

/// In a session whose units are fit, each dump shows the waves of the last batch before its line, and `vcd_answers::read_vcd` reads exactly
/// these from it.
pub fn dumps_show_own_waves()
    ensures { DumpsShowOwnWaves }
{}

/// The evaluations of a session are those of different points and repeated ones, each of these after the eviction of its cell.
pub fn sessions_are_frugal()
    ensures { SessionsAreFrugal }
{}

/// In a session whose units are fit, every explanation in a reply is a proof that `why_proofs::check_proof` accepts.
pub fn explanations_are_accepted()
    ensures { ExplanationsAreAccepted }
{}

/// Every session whose units are fit keeps its promises: ample budgets are served, and the three laws above hold.
pub fn sessions_keep_promises()
    ensures { SessionsKeepPromises }
{}

/// The journal of every session is the text of its sections alone: all its numbers are within the limits of a text, and by
/// `journal_text::one_journal` no other list of sections has it.
pub fn sessions_have_one_journal()
    ensures { SessionsHaveOneJournal }
{
    script_units_are_fit();
}

/// Every session of a script is whole. It keeps its promises, since the units of a script are fit.
pub fn sessions_are_whole()
    ensures { SessionsAreWhole }
{
    script_units_are_fit();
}
