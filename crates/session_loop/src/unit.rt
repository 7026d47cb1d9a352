//! A unit is served.

ghost use Rattle.std.specs.Prelude.{◌≡◌, ◌∷◌, [], All, IfOk, length, sum_by};
ghost use Rattle.journal_text.specs.declared.sections.SectionKind.TheVariants as kinds_of_section;
ghost use Rattle.query_lines.specs.declared.unit.Unit.TheVariants as kinds;
ghost use Rattle.query_lines.specs.Laws.{IsWithin};
ghost use Rattle.query_lines.specs.Fit.{AsksByName, HaveOwnLines, IsFit};
ghost use Rattle.reply_lines.specs.Replies.{stats_line, trimmed_line};
ghost use Rattle.unit_answers.specs.Done.{IsTrimDone};
ghost use Rattle.unit_answers.specs.Stores.{AreStores};
ghost use Rattle.session_loop.specs.Outside.{seen};
ghost use Rattle.session_loop.specs.Serving.{memo_of};
ghost use Rattle.session_loop.specs.inner.Desks.{IsCounted, IsReady};
ghost use Rattle.session_loop.specs.inner.Pieces.{Replies};
ghost use Rattle.session_loop.specs.inner.Serving.{ServesUnits};

use crate::counting::{cells_in, count_section, entries_in};
use crate::desk::{Counts, Desk, LastBatch};
use crate::dump::serve_vcd;
use crate::question::serve_question;
use crate::section::write_reply;
use crate::service::Service;
use crate::stop::{RepliesStop, UnitStop};
use crate::tell::{tell_batch, tell_trim};
use backsim_io::{Files, Sink};
use cell_store::CellStore;
use journal_text::SectionKind;
use query_lines::{ItemList, Unit, UnitList};
use reply_lines::{stats_text, trimmed_text};
use std::alloc::Global;
use texts::OutOfMemory;
use unit_answers::{TrimDone, answer_batch, trim_stores};
use worker_gate::Crew;

/// Serves a batch: its replies in the order of the items, then its section.
pub fn serve_batch<C: Crew, F: Files, S: Sink>(
    crew: &C,
    service: &Service<'_>,
    items: ItemList,
    desk: Desk,
    files: &mut F,
    out: &mut S,
) -> Result<Desk, UnitStop>
    requires within { IsWithin service.now.design.now.circuit.horizon items }
    requires lines { HaveOwnLines items }
    requires named { All (λ item. AsksByName item.what) items }
    requires ready { IsReady (memo_of service.now) desk (F.state files.old) }
    ensures { ServesUnits service.now desk (kinds.Batch items ∷ []) result
        (seen (F.state files.old) (F.made files.old) (S.faults out.old) (S.written out.old))
        (seen (F.state files.new) (F.made files.new) (S.faults out.new) (S.written out.new)) }
{
    let Desk {
        stores,
        counts,
        mut dumps,
        last_site,
    } = desk;
    // The last batch is given up before the next one is answered.
    dumps.last = None;
    let done = answer_batch(
        crew,
        service.alloc,
        service.design,
        items.as_slice(),
        service.sizes,
        stores,
    )?;
    let counts = tell_batch(
        crew,
        service.alloc,
        items.as_slice(),
        &done,
        counts,
        files,
        out,
    )?;
    dumps.last = Some(LastBatch {
        items,
        replies: done.replies,
    });
    Ok(Desk {
        stores: done.stores,
        counts,
        dumps,
        last_site,
    })
}

/// A trim that was made: the counts with its section, and its reply as text.
#[derive(Drop)]
struct Trimmed {
    done: TrimDone,
    counts: Counts,
    text: Vec<u8>,
}

/// Trims the stores, and counts the section of this.
fn trim(
    service: &Service<'_>,
    most: u32,
    stores: Vec<CellStore>,
    counts: Counts,
) -> Result<Trimmed, OutOfMemory>
    requires stores { AreStores (memo_of service.now) stores.items }
    ensures done { IfOk result (λ r. IsTrimDone (memo_of service.now) most stores.items
        r.done.lists.items r.done.stores.items) }
    ensures counted { IfOk result (λ r. IsCounted counts kinds_of_section.Trim r.done.lists.items
        r.counts) }
    ensures text { IfOk result (λ r. r.text.items
        ≡ trimmed_line (sum_by length r.done.lists.items)) }
{
    let done = trim_stores(service.alloc, service.design, most, service.sizes, stores)?;
    let Some(counts) = count_section(counts, SectionKind::Trim, &done.lists) else {
        return Err(OutOfMemory);
    };
    let Some(removed) = entries_in(&done.lists) else {
        return Err(OutOfMemory);
    };
    let text = trimmed_text(service.alloc, removed)?;
    Ok(Trimmed { done, counts, text })
}

/// Serves a trim: its reply, then its section.
pub fn serve_trim<C: Crew, F: Files, S: Sink>(
    crew: &C,
    service: &Service<'_>,
    most: u32,
    desk: Desk,
    files: &mut F,
    out: &mut S,
) -> Result<Desk, UnitStop>
    requires ready { IsReady (memo_of service.now) desk (F.state files.old) }
    ensures { ServesUnits service.now desk (kinds.Trim most ∷ []) result
        (seen (F.state files.old) (F.made files.old) (S.faults out.old) (S.written out.old))
        (seen (F.state files.new) (F.made files.new) (S.faults out.new) (S.written out.new)) }
{
    let Desk {
        stores,
        counts,
        dumps,
        last_site,
    } = desk;
    let Trimmed { done, counts, text } = trim(service, most, stores, counts)?;
    tell_trim(
        crew,
        service.alloc,
        &text,
        &done.lists,
        counts.sections,
        files,
        out,
    )?;
    Ok(Desk {
        stores: done.stores,
        counts,
        dumps,
        last_site,
    })
}

/// Tells the counts of a desk.
fn tell_stats<S: Sink>(alloc: Global, desk: &Desk, out: &mut S) -> Result<(), RepliesStop>
    ensures { Replies (stats_line desk.now.counts.batches desk.now.counts.fills
        desk.now.counts.evictions (sum_by (λ store. length store.cells) desk.now.stores.items))
        result (S.faults out.old) (S.written out.old) (S.faults out.new) (S.written out.new) }
{
    let Some(cells) = cells_in(&desk.stores) else {
        return Err(RepliesStop::OutOfMemory);
    };
    let counts = desk.counts;
    let text = stats_text(alloc, counts.batches, counts.fills, counts.evictions, cells)?;
    write_reply(&text, out)
}

/// Serves a line that asks for the counts.
pub fn serve_stats<F: Files, S: Sink>(
    service: &Service<'_>,
    desk: Desk,
    files: &mut F,
    out: &mut S,
) -> Result<Desk, UnitStop>
    requires ready { IsReady (memo_of service.now) desk (F.state files.old) }
    ensures { ServesUnits service.now desk (kinds.Stats ∷ []) result
        (seen (F.state files.old) (F.made files.old) (S.faults out.old) (S.written out.old))
        (seen (F.state files.new) (F.made files.new) (S.faults out.new) (S.written out.new)) }
{
    tell_stats(service.alloc, &desk, out)?;
    Ok(desk)
}

/// Serves a unit.
pub fn serve_unit<C: Crew, F: Files, S: Sink>(
    crew: &C,
    service: &Service<'_>,
    unit: Unit,
    desk: Desk,
    files: &mut F,
    out: &mut S,
) -> Result<Desk, UnitStop>
    requires fit { IsFit service.now.design.now.circuit.horizon unit }
    requires ready { IsReady (memo_of service.now) desk (F.state files.old) }
    ensures { ServesUnits service.now desk (unit ∷ []) result
        (seen (F.state files.old) (F.made files.old) (S.faults out.old) (S.written out.old))
        (seen (F.state files.new) (F.made files.new) (S.faults out.new) (S.written out.new)) }
{
    match unit {
        Unit::Batch(items) => { serve_batch(crew, service, items, desk, files, out) }
        Unit::Trim(most) => serve_trim(crew, service, most, desk, files, out),
        Unit::Stats => serve_stats(service, desk, files, out),
        Unit::Question(question) => { serve_question(crew, service, &question, desk, files, out) }
        Unit::Vcd(file) => serve_vcd(service, file, desk, files, out),
    }
}

/// Serves units, one after another.
pub fn serve_units<C: Crew, F: Files, S: Sink>(
    crew: &C,
    service: &Service<'_>,
    units: UnitList,
    desk: Desk,
    files: &mut F,
    out: &mut S,
) -> Result<Desk, UnitStop>
    requires fit { All (IsFit service.now.design.now.circuit.horizon) units }
    requires ready { IsReady (memo_of service.now) desk (F.state files.old) }
    ensures { ServesUnits service.now desk units result
        (seen (F.state files.old) (F.made files.old) (S.faults out.old) (S.written out.old))
        (seen (F.state files.new) (F.made files.new) (S.faults out.new) (S.written out.new)) }
{
    let mut desk = desk;
    for unit in units.into_vec() {
        desk = serve_unit(crew, service, unit, desk, files, out)?;
    }
    Ok(desk)
}
