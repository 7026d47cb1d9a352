//! The cell at one time of a question, asked of both memos.

ghost use Rattle.std.specs.Prelude.{◌≡◌, ◌<◌, true, IfOk, IfSome, IfNone, OnOk, OnSome};
ghost use Rattle.circuit_meaning.specs.Cells.{cell_at};
ghost use Rattle.circuit_meaning.specs.Need.{IsRoot};
ghost use Rattle.journal_meaning.specs.Batches.{window_of};
ghost use Rattle.session_meaning.specs.StuckSignals.{IsCoveredBy};
ghost use Rattle.plan_machine.specs.Settle.{charge_of, root_start};
ghost use Rattle.plan_core.specs.Parts.{shards_in};
ghost use Rattle.plan_core.specs.asked.Memos.{at_time, entries_of, is_missing};
ghost use Rattle.query_answers.specs.stuck.Asks.{RefusedBy, HearsRoot};
ghost use Rattle.query_answers.specs.stuck.inner.Both.{IsAsked, Rests, GivesUp, LeavesOwn, IsRefused, AreKept, Extends, circuit_of, site_in};

use crate::stuck::asked::AskedDesign;
use crate::stuck::both::{Memos, StuckQuery};
use crate::stuck::step::{AfterStep, take_step};
use demand_points::{BatchDesign, BatchName, Strand};
use design::Design;
use memo_shards::Step;
use plan_machine::Next;
use std::alloc::Global;
use texts::OutOfMemory;
use valid_intervals::Cell;

/// Gives up what a refused strand holds.
fn drop_all<B: BatchName, H: BatchName>(
    memos: &mut Memos<'_, B, H>,
    strand: &mut Strand<H>,
    design: &Design,
    held: BatchDesign<'_, H>,
    question: StuckQuery,
    time: u32,
)
    requires asked { IsAsked B.batch H.batch question design.now.circuit held.design.now.circuit }
    requires gives_up { (who : RefusedBy) ×
        GivesUp B.batch question time memos.old.session.memo memos.old.own strand.old who }
    ensures refused { IsRefused B.batch question memos.new.session.memo memos.new.own }
    ensures leaves { (who : RefusedBy)
        → GivesUp B.batch question time memos.old.session.memo memos.old.own strand.old who
        → LeavesOwn B.batch.circuit question time (entries_of memos.new.session.memo)
        memos.new.own.shard.journal who }
    ensures extends { Extends memos.old.own.shard.journal memos.new.own.shard.journal }
    ensures session { memos.new.session ≡ memos.old.session }
{
    'claims: loop {
        strand.facts();
        match strand.next_step(held) {
            Next::Drop(p) => {
                let came = memos.own.step(strand, held, Next::Drop(p));
                let Ok(Step::Dropped(_)) = came else {
                    unreachable!();
                };
            }
            Next::Done => return,
            Next::Ask(_) => unreachable!(),
            Next::Fill(_) => unreachable!(),
        }
    }
}

/// The cell at a time of the question's window that is a root of it; none where it is refused, and then nothing is claimed any more.
pub fn hear_root<B: BatchName, H: BatchName>(
    alloc: Global,
    memos: &mut Memos<'_, B, H>,
    design: &mut AskedDesign<'_>,
    held: BatchDesign<'_, H>,
    question: StuckQuery,
    time: u32,
) -> Result<Option<Cell>, OutOfMemory>
    requires asked { IsAsked B.batch H.batch question design.old.circuit held.design.now.circuit }
    requires query { memos.old.session.query ≡ question.query }
    requires rests { Rests B.batch B.opening question memos.old.session.memo memos.old.own
        memos.old.filled }
    requires root { IsRoot (circuit_of B.batch question) (window_of question.query) time }
    requires within { time < question.query.to }
    ensures query { memos.new.session.query ≡ memos.old.session.query }
    ensures kept_session { OnOk result (AreKept (entries_of memos.old.session.memo)
        (entries_of memos.new.session.memo)) }
    ensures extends { OnOk result (Extends memos.old.own.shard.journal
        memos.new.own.shard.journal) }
    ensures cell { IfOk result (λ r. IfSome r
        (λ cell. cell ≡ cell_at (circuit_of B.batch question) (at_time question.query time))) }
    ensures rests { IfOk result (λ r. OnSome r
        (Rests B.batch B.opening question memos.new.session.memo memos.new.own memos.new.filled)) }
    ensures covered { IfOk result (λ r. OnSome r
        (IsCoveredBy B.batch.circuit (site_in question) (entries_of memos.new.session.memo)
        memos.new.own.shard.journal (at_time question.query time))) }
    ensures refused { IfOk result (λ r. IfNone r
        (IsRefused B.batch question memos.new.session.memo memos.new.own)) }
    ensures asks { let q = question.query in let was = memos.old.own.shard.journal in
        IfOk result (λ r. HearsRoot B.batch B.opening (site_in question)
        (root_start q time (charge_of was q)) (shards_in memos.old.session.memo) was
        (shards_in memos.new.session.memo) memos.new.own.shard.journal (is_missing r)) }
    ensures design { design.new ≡ design.old }
{
    let query = question.query;
    if let Some(cell) = held.design.base(query.signal, time) {
        return Ok(Some(cell));
    }
    let mut strand = Strand::<H>::start(
        alloc,
        0,
        query,
        time,
        time + 1,
        query.budget,
        memos.filled,
    );
    'steps: loop {
        match take_step(alloc, memos, &mut strand, design, held, question, time)? {
            AfterStep::GoesOn => {}
            AfterStep::Ended => {
                strand.facts();
                memos.filled = strand.charge();
                let Some(cell) = strand.last() else {
                    unreachable!()
                };
                return Ok(Some(cell));
            }
            AfterStep::Refused => {
                drop_all(memos, &mut strand, design.design(), held, question, time);
                return Ok(None);
            }
        }
    }
}
