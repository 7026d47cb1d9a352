//! The answer to a question for a wave where a signal is stuck.

ghost use Rattle.std.specs.Prelude.{◌≡◌, ◌<◌, ◌∷◌, [], Some, length, IfOk, OnOk};
ghost use Rattle.journal_meaning.specs.Lawful.{IsLawful};
ghost use Rattle.session_meaning.specs.StuckSignals.{IsHeldJournal, IsStuckOutcome, NoneIsFree};
ghost use Rattle.session_meaning.specs.declared.Verdict.TheVariants.{Ask};
ghost use Rattle.reply_lines.specs.Replies.{is_budget};
ghost use Rattle.plan_machine.specs.Sound.{IsFresh};
ghost use Rattle.plan_machine.specs.Settle.{entries_in};
ghost use Rattle.plan_core.specs.Parts.{shards_in};
ghost use Rattle.plan_core.specs.asked.Shards.{AreNumbered, AreUnused};
ghost use Rattle.plan_core.specs.asked.Memos.{entries_of};
ghost use Rattle.query_answers.specs.stuck.Asks.{AsksRoots, AsksBoth};
ghost use Rattle.query_answers.specs.stuck.inner.Both.{IsAsked, Rests, site_in};

use crate::asking::Asking;
use crate::stuck::asked::AskedDesign;
use crate::stuck::both::{Memos, StuckQuery};
use crate::stuck::root::hear_root;
use cell_store::CellStore;
use demand_points::{BatchDesign, BatchName};
use design::Design;
use gate_values::Value;
use journal_meaning::{Entry, Query};
use memo_shards::Shard;
use plan_core::asked::{Wanted, begin};
use reply_lines::Outcome;
use std::alloc::Global;
use std::marker::Brand;
use texts::OutOfMemory;
use window_walks::{Runs, WindowWalk};

/// How many cells the memo of its own has room for.
const OWN_CELLS: u32 = 65_536;

/// The outcome, the session's shards, and the journal of the memo of its own.
#[derive(Drop)]
pub struct StuckWave<B: BatchName> {
    pub outcome: Outcome<Runs>,
    pub shards: Vec<Shard<B>>,
    pub held: Vec<Entry>,
}

/// Walks the window of the question from cell to cell. In the end nothing is claimed in the memo of its own.
fn walk<B: BatchName, H: BatchName>(
    alloc: Global,
    memos: &mut Memos<'_, B, H>,
    design: &mut AskedDesign<'_>,
    held: BatchDesign<'_, H>,
    question: StuckQuery,
) -> Result<Outcome<Runs>, OutOfMemory>
    requires asked { IsAsked B.batch H.batch question design.old.circuit held.design.now.circuit }
    requires query { memos.old.session.query ≡ question.query }
    requires rests { Rests B.batch B.opening question memos.old.session.memo memos.old.own
        memos.old.filled }
    ensures number { OnOk result (memos.new.own.number ≡ 0) }
    ensures idle { OnOk result (memos.new.own.shard.state.claims ≡ []) }
    ensures reached { OnOk result (NoneIsFree B.batch.circuit (site_in question)
        memos.new.own.shard.journal) }
    ensures outcome { IfOk result (IsStuckOutcome B.batch.circuit (site_in question)
        (entries_of memos.new.session.memo) memos.new.own.shard.journal (Ask question.query)) }
    ensures asks { let site = site_in question in
        IfOk result (λ outcome. AsksRoots B.batch B.opening site question.query
        (shards_in memos.old.session.memo) memos.old.own.shard.journal
        (shards_in memos.new.session.memo) memos.new.own.shard.journal (is_budget outcome)) }
    ensures design { design.new ≡ design.old }
{
    let query = question.query;
    let mut walk = WindowWalk::new(alloc, query.from, query.to);
    'cells: while let Some(time) = walk.next() {
        let Some(cell) = hear_root(alloc, memos, design, held, question, time)? else {
            return Ok(Outcome::Budget(query.budget));
        };
        // they say that the cells of its journal are right
        memos.own.facts();
        walk.push(cell)?;
    }
    Ok(Outcome::Answer(walk.into_runs()))
}

/// Answers the question, with a memo of its own for the batch that H names.
fn answer<B: BatchName, H: BatchName>(
    alloc: Global,
    design: &mut AskedDesign<'_>,
    held: &Design,
    question: StuckQuery,
    session: Asking<'_, B>,
) -> Result<StuckWave<B>, OutOfMemory>
    requires asked { IsAsked B.batch H.batch question design.old.circuit held.now.circuit }
    requires opening { H.opening 0 ≡ [] }
    requires unused { entries_of session.memo ≡ [] }
    ensures numbers { IfOk result (λ done. AreNumbered done.shards.items) }
    ensures fresh { IfOk result (λ done. IsFresh B.batch B.opening (shards_in done.shards.items)) }
    ensures held { IfOk result (λ done. IsHeldJournal B.batch.circuit (site_in question)
        question.query done.held.items) }
    ensures outcome { IfOk result (λ done. IsStuckOutcome B.batch.circuit (site_in question)
        (entries_in (shards_in done.shards.items)) done.held.items (Ask question.query)
        done.outcome) }
    ensures asks { let site = site_in question in
        IfOk result (λ done. AsksRoots B.batch B.opening site question.query
        (shards_in session.entry.memo) [] (shards_in done.shards.items) done.held.items
        (is_budget done.outcome)) }
    ensures design { design.new ≡ design.old }
{
    let mut session = session;
    session.turn_to(question.query, 0)?;
    let store = CellStore::new(alloc, OWN_CELLS, 1, 0)?;
    let held = BatchDesign::<H>::new(held);
    let mut memos = Memos::<B, H> {
        session,
        own: Shard::begin(alloc, 0, store),
        filled: 0,
    };
    let outcome = walk(alloc, &mut memos, design, held, question)?;
    // they say that its journal is legal
    memos.own.facts();
    let (_, journal) = memos.own.end_batch();
    Ok(StuckWave {
        outcome,
        shards: memos.session.into_shards()?,
        held: journal,
    })
}

/// The waveform of a query where the signal `site` is stuck at a value; or its budget, where it would take more evaluations. An `Err` gives
/// up the shards.
pub fn stuck_wave<B: BatchName>(
    alloc: Global,
    design: &mut AskedDesign<'_>,
    shards: Vec<Shard<B>>,
    query: Query,
    site: u32,
    value: Value,
) -> Result<StuckWave<B>, OutOfMemory>
    requires lawful { IsLawful B.batch }
    requires design { design.old.circuit ≡ B.batch.circuit }
    requires site { B.batch.site ≡ Some (record { signal = site; value = value }) }
    requires signal { site < length B.batch.circuit.drivers }
    requires queries { B.batch.queries ≡ query ∷ [] }
    requires count { length shards.items ≡ B.batch.shards }
    requires numbers { AreNumbered shards.items }
    requires unused { AreUnused shards.items }
    ensures numbers { IfOk result (λ done. AreNumbered done.shards.items) }
    ensures fresh { IfOk result (λ done. IsFresh B.batch B.opening (shards_in done.shards.items)) }
    ensures held { IfOk result (λ done. IsHeldJournal B.batch.circuit
        (record { signal = site; value = value }) query done.held.items) }
    ensures outcome { IfOk result (λ done. IsStuckOutcome B.batch.circuit
        (record { signal = site; value = value }) (entries_in (shards_in done.shards.items))
        done.held.items (Ask query) done.outcome) }
    ensures asks { IfOk result (λ done. AsksBoth B.batch B.opening
        (record { signal = site; value = value }) query (shards_in shards.items)
        (shards_in done.shards.items) done.held.items (is_budget done.outcome)) }
    ensures design { design.new ≡ design.old }
{
    let held = design.design().hold(alloc, site, value)?;
    let question = StuckQuery { query, site, value };
    let memo = begin(alloc, shards, &Wanted::all())?;
    let session = Asking::new(BatchDesign::new(design.design()), memo);
    answer::<B, Brand>(alloc, design, &held, question, session)
}
