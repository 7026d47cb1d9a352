//! The queries of items, and the replies at the places of items.

ghost use Rattle.std.specs.Prelude.{◌≡◌, ◌+◌, ◌≤◌, length, flat_map, IfOk};
ghost use Rattle.std.specs.Vec.Iter.{into_iter_items, into_iter_len};
ghost use Rattle.session_meaning.specs.Verdicts.{item_queries};
ghost use Rattle.unit_answers.specs.inner.Placed.{no_answer, reply_to, left_by, placed_replies};

use journal_meaning::Query;
use reply_lines::{Outcome, Reply};
use session_meaning::Verdict;
use std::alloc::Global;
use std::vec::IntoIter;
use texts::OutOfMemory;
use window_walks::Runs;

/// The queries that are asked.
pub fn queries_of(alloc: Global, verdicts: &[Option<Verdict>]) -> Result<Vec<Query>, OutOfMemory>
    ensures { IfOk result (λ queries. queries.items ≡ flat_map item_queries verdicts.now) }
{
    let mut queries = Vec::new(alloc);
    for verdict in verdicts {
        if let Some(Verdict::Ask(query)) = verdict {
            queries.push(*query)?;
        }
    }
    Ok(queries)
}

/// The outcome of a window that has no answer: why none is asked for, or the budget of its query.
pub fn no_answer<T>(verdict: Verdict) -> Outcome<T>
    ensures { result ≡ no_answer verdict }
{
    match verdict {
        Verdict::Ask(query) => Outcome::Budget(query.budget),
        Verdict::Unknown => Outcome::Unknown,
        Verdict::Past => Outcome::Past,
    }
}

/// The reply to an item. That to a query is the next outcome.
fn next_reply(verdict: Option<Verdict>, outcomes: &mut IntoIter<Outcome<Runs>>) -> Reply
    requires { length (item_queries verdict) ≤ into_iter_len outcomes.old }
    ensures reply { result ≡ reply_to verdict (into_iter_items outcomes.old) }
    ensures left { into_iter_items outcomes.new ≡ left_by verdict (into_iter_items outcomes.old) }
    ensures len { into_iter_len outcomes.new + length (item_queries verdict)
        ≡ into_iter_len outcomes.old }
{
    match verdict {
        Some(Verdict::Ask(_)) => Reply::Window(outcomes.next().unwrap()),
        Some(verdict) => Reply::Window(no_answer(verdict)),
        None => Reply::BadLine,
    }
}

/// Puts the outcomes of the queries at the places of their items.
pub fn place_replies(
    alloc: Global,
    verdicts: &[Option<Verdict>],
    outcomes: Vec<Outcome<Runs>>,
) -> Result<Vec<Reply>, OutOfMemory>
    requires { length outcomes.items ≡ length (flat_map item_queries verdicts.now) }
    ensures { IfOk result (λ replies. replies.items ≡ placed_replies verdicts.now outcomes.items) }
{
    let mut outcomes = outcomes.into_iter();
    let mut replies = Vec::new(alloc);
    for verdict in verdicts {
        replies.push(next_reply(*verdict, &mut outcomes))?;
    }
    Ok(replies)
}
