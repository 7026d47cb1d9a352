//! A session of one batch, without a script.

ghost use Rattle.std.specs.Prelude.{◌≡◌, ◌<◌, ◌≤◌, [], replicate, IfErr, IfOk};
ghost use Rattle.query_lines.specs.Laws.{IsWithin};
ghost use Rattle.query_lines.specs.Fit.{HaveOwnLines};
ghost use Rattle.cell_store.specs.Recency.{contents};
ghost use Rattle.unit_answers.specs.Done.{IsBatchDone};
ghost use Rattle.session_loop.specs.Halting.{WroteJournal, IsWork, IsWorkHalted};
ghost use Rattle.session_loop.specs.Serving.{memo_of};
ghost use Rattle.session_loop.specs.Outside.{JournalChanges};

use crate::halt::JournalHalt;
use crate::journal::begin_journal;
use crate::section::write_section;
use crate::service::Service;
use crate::stores::empty_stores;
use backsim_io::Files;
use journal_text::SectionKind;
use query_lines::Item;
use unit_answers::{BatchDone, answer_batch};
use worker_gate::Crew;

/// Creates the journal and writes its head, answers the items as one batch over empty stores, and writes the section of the batch. The
/// replies are handed back, in the order of the items, and with them the journal and the stores. The journal is left to the caller to
/// finish, once he has told of the replies.
pub fn serve_work<C: Crew, F: Files>(
    crew: &C,
    service: &Service<'_>,
    items: &[Item],
    journal: &str,
    files: &mut F,
) -> Result<BatchDone, JournalHalt>
    requires shards { (0 < service.now.sizes.shards) × (service.now.sizes.shards ≤ 64) }
    requires cells { (0 < service.now.sizes.cells) × (service.now.sizes.cells ≤ 65536) }
    requires within { IsWithin service.now.design.now.circuit.horizon items.now }
    requires lines { HaveOwnLines items.now }
    requires files { (F.state files.old).created ≡ 0 }
    ensures done { IfOk result (λ done. IsBatchDone (memo_of service.now) items.now
        (replicate service.now.sizes.shards (contents service.now.sizes.cells []))
        done.replies.items done.lists.items done.stores.items) }
    ensures worked { IfOk result (λ done. WroteJournal
        (IsWork (memo_of service.now) items.now done.replies.items) journal.now
        (F.made files.old) (F.made files.new)) }
    ensures halted { IfErr result (IsWorkHalted (memo_of service.now) items.now journal.now
        (F.made files.old) (F.made files.new)) }
    ensures state { JournalChanges (F.state files.old) (F.state files.new) result }
{
    let alloc = service.alloc;
    let design = service.design;
    let sizes = service.sizes;
    begin_journal(alloc, sizes, journal, files)?;
    let stores = empty_stores(alloc, sizes)?;
    let done = answer_batch(crew, alloc, design, items, sizes, stores)?;
    write_section(crew, alloc, SectionKind::Batch, 1, &done.lists, files)?;
    Ok(done)
}
