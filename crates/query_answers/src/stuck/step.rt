//! One step of the strand that asks for a time.

ghost use Rattle.std.specs.Prelude.{◌≡◌, ◌<◌, IfOk, OnOk};
ghost use Rattle.plan_machine.specs.Strands.{next as next_of};
ghost use Rattle.plan_machine.specs.declared.strand.Next.TheVariants.{Ask as AskNext};
ghost use Rattle.plan_core.specs.asked.Memos.{entries_of};
ghost use Rattle.circuit_meaning.specs.Forced.{IsFree};
ghost use Rattle.query_answers.specs.stuck.inner.Both.{IsAsked, Asks, AreKept, Extends};
ghost use Rattle.query_answers.specs.stuck.inner.Steps.{IsAfterStep, IsOwnStep};

use crate::stuck::asked::AskedDesign;
use crate::stuck::both::{Memos, StuckQuery};
use demand_points::{BatchDesign, BatchName, Strand};
use design::Design;
use memo_shards::{Step, step_point};
use plan_machine::Next;
use std::alloc::Global;
use texts::OutOfMemory;
use valid_intervals::Point;

/// What came of a step.
#[derive(Clone, Copy)]
pub enum AfterStep {
    /// The strand has another step.
    GoesOn,
    /// It has heard its root.
    Ended,
    /// It was refused a point, and holds its claims still.
    Refused,
}

/// Makes a step at the memo of its own: a fill, or an ask for a point that is not free.
fn step_own<B: BatchName, H: BatchName>(
    memos: &mut Memos<'_, B, H>,
    strand: &mut Strand<H>,
    design: &Design,
    held: BatchDesign<'_, H>,
    question: StuckQuery,
    time: u32,
    next: Next,
) -> Result<AfterStep, OutOfMemory>
    requires asked { IsAsked B.batch H.batch question design.now.circuit held.design.now.circuit }
    requires asks { Asks B.batch B.opening question time memos.old.session.memo memos.old.own
        strand.old }
    requires next { next_of strand.old.strand ≡ next }
    requires own { IsOwnStep B.batch question next }
    ensures after { IfOk result (IsAfterStep B.batch B.opening H.batch question time
        memos.old.session.memo memos.new.session.memo memos.new.own strand.old strand.new) }
    ensures extends { OnOk result (Extends memos.old.own.shard.journal
        memos.new.own.shard.journal) }
    ensures session { memos.new.session ≡ memos.old.session }
{
    strand.facts();
    memos.own.facts();
    match memos.own.step(strand, held, next)? {
        Step::Heard => Ok(AfterStep::GoesOn),
        Step::Holds => Ok(AfterStep::GoesOn),
        Step::Filled(_) => Ok(AfterStep::GoesOn),
        Step::Refused => {
            let Some(p) = step_point(next) else {
                unreachable!();
            };
            memos.own.spend(strand, p)?;
            Ok(AfterStep::Refused)
        }
        Step::Taken => unreachable!(),
        Step::Dropped(_) => unreachable!(),
    }
}

/// Asks the session's memo for a point that is free of the site.
fn ask_session<B: BatchName, H: BatchName>(
    memos: &mut Memos<'_, B, H>,
    strand: &mut Strand<H>,
    held: BatchDesign<'_, H>,
    question: StuckQuery,
    time: u32,
    p: Point,
) -> Result<AfterStep, OutOfMemory>
    requires asked { IsAsked B.batch H.batch question B.batch.circuit held.design.now.circuit }
    requires query { memos.old.session.query ≡ question.query }
    requires asks { Asks B.batch B.opening question time memos.old.session.memo memos.old.own
        strand.old }
    requires next { next_of strand.old.strand ≡ AskNext p }
    requires free { IsFree B.batch.circuit question.site p.signal }
    ensures query { memos.new.session.query ≡ memos.old.session.query }
    ensures after { IfOk result (IsAfterStep B.batch B.opening H.batch question time
        memos.old.session.memo memos.new.session.memo memos.new.own strand.old strand.new) }
    ensures kept_session { OnOk result (AreKept (entries_of memos.old.session.memo)
        (entries_of memos.new.session.memo)) }
    ensures own { memos.new.own ≡ memos.old.own }
{
    strand.facts();
    match memos.session.cell(p)? {
        Some(cell) => {
            strand.hear(held, cell);
            Ok(AfterStep::GoesOn)
        }
        None => {
            strand.give_up();
            Ok(AfterStep::Refused)
        }
    }
}

/// One step of the strand.
pub fn take_step<B: BatchName, H: BatchName>(
    alloc: Global,
    memos: &mut Memos<'_, B, H>,
    strand: &mut Strand<H>,
    design: &mut AskedDesign<'_>,
    held: BatchDesign<'_, H>,
    question: StuckQuery,
    time: u32,
) -> Result<AfterStep, OutOfMemory>
    requires asked { IsAsked B.batch H.batch question design.old.circuit held.design.now.circuit }
    requires query { memos.old.session.query ≡ question.query }
    requires asks { Asks B.batch B.opening question time memos.old.session.memo memos.old.own
        strand.old }
    ensures query { memos.new.session.query ≡ memos.old.session.query }
    ensures after { IfOk result (IsAfterStep B.batch B.opening H.batch question time
        memos.old.session.memo memos.new.session.memo memos.new.own strand.old strand.new) }
    ensures kept_session { OnOk result (AreKept (entries_of memos.old.session.memo)
        (entries_of memos.new.session.memo)) }
    ensures extends { OnOk result (Extends memos.old.own.shard.journal
        memos.new.own.shard.journal) }
    ensures design { design.new ≡ design.old }
{
    let plain = design.design();
    match strand.next_step(held) {
        Next::Done => Ok(AfterStep::Ended),
        Next::Fill(p) => step_own(memos, strand, plain, held, question, time, Next::Fill(p)),
        Next::Ask(p) => {
            strand.facts();
            let is_reached = design.is_reached(alloc, question.site, p.signal)?;
            if is_reached {
                step_own(memos, strand, plain, held, question, time, Next::Ask(p))
            } else {
                ask_session(memos, strand, held, question, time, p)
            }
        }
        Next::Drop(_) => unreachable!(),
    }
}
