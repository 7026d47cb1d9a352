//! Questions that are batches of their own.

ghost use Rattle.std.specs.Prelude.{◌≡◌, ◌≤◌, ◌∷◌, [], Contains, IfOk, IfSome, vec_len};
ghost use Rattle.query_lines.specs.declared.unit.Unit.TheVariants as kinds;
ghost use Rattle.query_lines.specs.Laws.{SuitsWindow};
ghost use Rattle.reply_lines.specs.Replies.{question_lines};
ghost use Rattle.unit_answers.specs.Done.{IsQuestionDone};
ghost use Rattle.unit_answers.specs.Stores.{AreStores};
ghost use Rattle.session_loop.specs.Outside.{seen};
ghost use Rattle.session_loop.specs.Serving.{memo_of};
ghost use Rattle.session_loop.specs.inner.Desks.{IsReady};
ghost use Rattle.session_loop.specs.inner.Serving.{ServesUnits};
ghost use Rattle.session_loop.specs.inner.Telling.{TellsAnswer};

use crate::counting::count_section;
use crate::desk::{Counts, Desk};
use crate::service::Service;
use crate::stop::UnitStop;
use crate::tell::tell_question;
use backsim_io::{Files, Sink};
use cell_store::CellStore;
use journal_text::SectionKind;
use query_answers::stuck::{AskedDesign, LastSite};
use query_lines::Question;
use reply_lines::question_text;
use texts::OutOfMemory;
use unit_answers::{QuestionDone, answer_question};
use worker_gate::Crew;

/// A question that was answered, and what is kept of the last stuck signal.
#[derive(Drop)]
struct AnsweredQuestion {
    done: QuestionDone,
    last_site: Option<LastSite>,
}

/// Asks a question over the stores, with what is kept of the last stuck signal.
fn ask(
    service: &Service<'_>,
    question: &Question,
    stores: Vec<CellStore>,
    last_site: Option<LastSite>,
) -> Result<AnsweredQuestion, OutOfMemory>
    requires suits { SuitsWindow question.now.asks question.now.window }
    requires stores { AreStores (memo_of service.now) stores.items }
    requires site { IfSome last_site (λ last. last ≡ service.now.design.now) }
    ensures done { IfOk result (λ asked. IsQuestionDone (memo_of service.now) question.now
        stores.items asked.done.reply asked.done.lists.items asked.done.own_lists.items
        asked.done.stores.items) }
    ensures site { IfOk result (λ asked.
        IfSome asked.last_site (λ last. last ≡ service.now.design.now)) }
{
    let mut design = AskedDesign::new(service.design, last_site);
    let done = answer_question(service.alloc, &mut design, question, service.sizes, stores)?;
    Ok(AnsweredQuestion {
        done,
        last_site: design.into_last(),
    })
}

/// Counts the section of a question that was answered, and tells its reply and this section, with that of a memo of its own, if it
/// has one.
fn tell_answer<C: Crew, F: Files, S: Sink>(
    crew: &C,
    service: &Service<'_>,
    question: &Question,
    done: &QuestionDone,
    counts: Counts,
    files: &mut F,
    out: &mut S,
) -> Result<Counts, UnitStop>
    requires few { vec_len done.now.lists ≤ 4294967295 }
    requires held { vec_len done.now.own_lists ≤ 4294967295 }
    requires unfinished { Contains (F.state files.old).unfinished 0 }
    ensures { TellsAnswer counts (question_lines question.now done.now.reply)
        done.now.lists.items done.now.own_lists.items result
        (seen (F.state files.old) (F.made files.old) (S.faults out.old) (S.written out.old))
        (seen (F.state files.new) (F.made files.new) (S.faults out.new) (S.written out.new)) }
{
    let Some(counts) = count_section(counts, SectionKind::Batch, &done.lists) else {
        return Err(UnitStop::OutOfMemory);
    };
    let text = question_text(service.alloc, question, &done.reply)?;
    tell_question(crew, service.alloc, &text, done, counts, files, out)
}

/// Serves a question: its reply, then its section, which is a batch's, and that of a memo of its own, if it has one.
pub fn serve_question<C: Crew, F: Files, S: Sink>(
    crew: &C,
    service: &Service<'_>,
    question: &Question,
    desk: Desk,
    files: &mut F,
    out: &mut S,
) -> Result<Desk, UnitStop>
    requires suits { SuitsWindow question.now.asks question.now.window }
    requires ready { IsReady (memo_of service.now) desk (F.state files.old) }
    ensures { ServesUnits service.now desk (kinds.Question question.now ∷ []) result
        (seen (F.state files.old) (F.made files.old) (S.faults out.old) (S.written out.old))
        (seen (F.state files.new) (F.made files.new) (S.faults out.new) (S.written out.new)) }
{
    let Desk {
        stores,
        counts,
        dumps,
        last_site,
    } = desk;
    let AnsweredQuestion { done, last_site } = ask(service, question, stores, last_site)?;
    let counts = tell_answer(crew, service, question, &done, counts, files, out)?;
    Ok(Desk {
        stores: done.stores,
        counts,
        dumps,
        last_site,
    })
}
