//! A question.

ghost use Rattle.std.specs.Prelude.{◌≡◌, length, IfOk};
ghost use Rattle.journal_meaning.specs.Lawful.{IsLawful};
ghost use Rattle.journal_meaning.specs.Sections.{of_batch};
ghost use Rattle.plan_machine.specs.Settle.{entries_in};
ghost use Rattle.plan_machine.specs.Sound.{IsFresh};
ghost use Rattle.plan_core.specs.Parts.{shards_in};
ghost use Rattle.plan_core.specs.asked.Shards.{AreNumbered, AreUnused};
ghost use Rattle.query_lines.specs.Laws.{SuitsWindow};
ghost use Rattle.session_meaning.specs.Questions.{question_queries, IsRightReply, IsOwnMemo};
ghost use Rattle.session_meaning.specs.Session.{question_batch};
ghost use Rattle.session_meaning.specs.Verdicts.{site_of};
ghost use Rattle.unit_answers.specs.Stores.{setup_of, AreStores};
ghost use Rattle.unit_answers.specs.Done.{AnswersQuestion};
ghost use Rattle.unit_answers.specs.inner.Asked.{IsAsked};
ghost use Rattle.unit_answers.specs.inner.Runs.{IsNamed};

use crate::asked::{Asked, Prepared, prepare};
use crate::run::{begin_all, end_all, no_entries};
use crate::sizes::Sizes;
use cell_store::CellStore;
use demand_points::{BatchDesign, BatchName};
use journal_text::EntryList;
use memo_shards::Shard;
use query_answers::explanations::explain;
use query_answers::first_times::first_time;
use query_answers::stuck::{AskedDesign, stuck_wave};
use query_lines::{Asks, Question};
use reply_lines::QuestionReply;
use std::alloc::Global;
use std::marker::Brand;
use texts::OutOfMemory;

/// The result of a question: the reply, the journal of each shard, and the stores after it.
#[derive(Drop)]
pub struct QuestionDone {
    pub reply: QuestionReply,
    pub lists: Vec<EntryList>,
    /// The journal of a second memo, if the question has one, and otherwise none.
    pub own_lists: Vec<EntryList>,
    pub stores: Vec<CellStore>,
}

/// The reply to a question, the journal of a second memo, if there is one, and the shards.
#[derive(Drop)]
struct Answered<B: BatchName> {
    reply: QuestionReply,
    own_lists: Vec<EntryList>,
    shards: Vec<Shard<B>>,
}

/// Asks the shards, and for a stuck signal a second memo too, by the kind of the question.
fn ask<B: BatchName>(
    alloc: Global,
    design: &mut AskedDesign<'_>,
    question: &Question,
    asked: Asked,
    shards: Vec<Shard<B>>,
) -> Result<Answered<B>, OutOfMemory>
    requires lawful { IsLawful B.batch }
    requires design { design.old.circuit ≡ B.batch.circuit }
    requires site { B.batch.site ≡ site_of design.old question.now.asks }
    requires queries { B.batch.queries ≡ question_queries design.old question.now }
    requires asked { IsAsked design.old question.now asked }
    requires suits { SuitsWindow question.now.asks question.now.window }
    requires count { length shards.items ≡ B.batch.shards }
    requires numbers { AreNumbered shards.items }
    requires unused { AreUnused shards.items }
    ensures fresh { IfOk result (λ answered.
        IsFresh B.batch B.opening (shards_in answered.shards.items)) }
    ensures memo { IfOk result (λ answered.
        IsOwnMemo design.old question.now answered.own_lists.items) }
    ensures right { IfOk result (λ answered. IsRightReply design.old question.now
        (entries_in (shards_in answered.shards.items)) (of_batch answered.own_lists.items)
        answered.reply) }
    ensures design { design.new ≡ design.old }
{
    let plain = design.design();
    plain.facts();
    let named = BatchDesign::<B>::new(plain);
    match &question.asks {
        Asks::First(value) => {
            let found = first_time(alloc, named, shards, asked.query, *value)?;
            Ok(Answered {
                reply: QuestionReply::First(found.outcome),
                own_lists: Vec::new(alloc),
                shards: found.shards,
            })
        }
        Asks::Why => {
            let found = explain(alloc, named, shards, asked.query)?;
            Ok(Answered {
                reply: QuestionReply::Why(found.outcome),
                own_lists: Vec::new(alloc),
                shards: found.shards,
            })
        }
        Asks::Stuck { value, .. } => {
            let Some(site) = asked.site else {
                unreachable!();
            };
            let found = stuck_wave(alloc, design, shards, asked.query, site, *value)?;
            let mut own_lists = Vec::with_capacity(alloc, 1)?;
            own_lists.push(EntryList::from_vec(found.held))?;
            Ok(Answered {
                reply: QuestionReply::Stuck(found.outcome),
                own_lists,
                shards: found.shards,
            })
        }
    }
}

/// Opens the shards over the stores in the batch that B names, asks the question of them, and closes them.
fn run_question<B: BatchName>(
    alloc: Global,
    design: &mut AskedDesign<'_>,
    question: &Question,
    asked: Asked,
    sizes: Sizes,
    stores: Vec<CellStore>,
) -> Result<QuestionDone, OutOfMemory>
    requires named { IsNamed B.batch B.opening (question_batch (setup_of design.old sizes)
        question.now) stores.items }
    requires stores { AreStores (setup_of design.old sizes) stores.items }
    requires asked { IsAsked design.old question.now asked }
    requires suits { SuitsWindow question.now.asks question.now.window }
    ensures done { AnswersQuestion (setup_of design.old sizes) question.now stores.items result }
    ensures design { design.new ≡ design.old }
{
    let begun = begin_all::<B>(alloc, stores)?;
    let answered = ask(alloc, design, question, asked, begun)?;
    let (lists, stores) = end_all(alloc, answered.shards)?;
    Ok(QuestionDone {
        reply: answered.reply,
        lists,
        own_lists: answered.own_lists,
        stores,
    })
}

/// Answers a question over the stores, without a crew: when a signal first has a value, why it has its value at a time, or which
/// waveform it has if another signal is stuck. If it asks nothing, no shard records an entry, and the stores stay as they are. If memory
/// runs out, the stores are dropped.
pub fn answer_question(
    alloc: Global,
    design: &mut AskedDesign<'_>,
    question: &Question,
    sizes: Sizes,
    stores: Vec<CellStore>,
) -> Result<QuestionDone, OutOfMemory>
    requires stores { AreStores (setup_of design.old sizes) stores.items }
    requires suits { SuitsWindow question.now.asks question.now.window }
    ensures done { AnswersQuestion (setup_of design.old sizes) question.now stores.items result }
    ensures design { design.new ≡ design.old }
{
    let plain = design.design();
    plain.facts();
    match prepare(plain, question) {
        Prepared::Ask(asked) => {
            run_question::<Brand>(alloc, design, question, asked, sizes, stores)
        }
        Prepared::Tell(reply) => {
            let lists = no_entries(alloc, &stores)?;
            Ok(QuestionDone {
                reply,
                lists,
                own_lists: Vec::new(alloc),
                stores,
            })
        }
    }
}
