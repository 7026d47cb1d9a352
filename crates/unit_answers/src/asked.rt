//! What a question asks.

ghost use Rattle.std.specs.Prelude.{◌≡◌, None};
ghost use Rattle.unit_answers.specs.inner.Asked.{IsSiteOf, Prepares, unasked_reply};

use crate::replies::no_answer;
use design::Design;
use journal_meaning::Query;
use query_answers::windows::verdict_of;
use query_lines::{Asks, Question};
use reply_lines::QuestionReply;
use session_meaning::Verdict;

/// The query of a question, and the number of the stuck signal if it has one.
#[derive(Clone, Copy)]
pub struct Asked {
    pub query: Query,
    pub site: Option<u32>,
}

/// What a question comes to before it is asked: its query, or the reply to a question that asks nothing.
#[derive(Drop)]
pub enum Prepared {
    Ask(Asked),
    Tell(QuestionReply),
}

/// The reply to a question of this kind that asks nothing of its window.
fn unasked_reply(asks: &Asks, verdict: Verdict) -> QuestionReply
    ensures { result ≡ unasked_reply asks.now verdict }
{
    match asks {
        Asks::First(_) => QuestionReply::First(no_answer(verdict)),
        Asks::Why => QuestionReply::Why(no_answer(verdict)),
        Asks::Stuck { .. } => QuestionReply::Stuck(no_answer(verdict)),
    }
}

/// What a question comes to with this stuck signal, if it has one.
fn prepare_at(design: &Design, question: &Question, site: Option<u32>) -> Prepared
    requires { IsSiteOf design.now question.now.asks site }
    ensures { Prepares design.now question.now result }
{
    let verdict = verdict_of(design, question.line, &question.window);
    match verdict {
        Verdict::Ask(query) => Prepared::Ask(Asked { query, site }),
        Verdict::Unknown => Prepared::Tell(unasked_reply(&question.asks, verdict)),
        Verdict::Past => Prepared::Tell(unasked_reply(&question.asks, verdict)),
    }
}

/// Looks up the names of a question, and whether its window ends within the horizon.
pub fn prepare(design: &Design, question: &Question) -> Prepared
    ensures { Prepares design.now question.now result }
{
    let Asks::Stuck { site, .. } = &question.asks else {
        return prepare_at(design, question, None);
    };
    match design.netlist().id_of(site.bytes()) {
        Some(site) => prepare_at(design, question, Some(site)),
        None => Prepared::Tell(QuestionReply::UnknownSite),
    }
}
