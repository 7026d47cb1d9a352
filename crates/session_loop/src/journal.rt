//! A journal is begun and finished.

ghost use Rattle.std.specs.Prelude.{◌≡◌, Contains, IfErr, OnOk};
ghost use Rattle.backsim_io.specs.FilesInMemory.{SameMade};
ghost use Rattle.journal_text.specs.Spelling.{head_line};
ghost use Rattle.session_loop.specs.Halting.{Stands};
ghost use Rattle.session_loop.specs.inner.Halting.{IsHeadHalted};
ghost use Rattle.session_loop.specs.Outside.{JournalChanges, FinishChanges};

use crate::halt::{JournalHalt, Unfinished};
use crate::section::{JOURNAL, write_piece};
use backsim_io::Files;
use journal_text::head_text;
use std::alloc::Global;
use unit_answers::Sizes;

/// How each journal begins.
const HEAD: &[u8] = b"journal shards";

/// Creates the journal, also in the place of another one, and writes its head.
pub fn begin_journal<F: Files>(
    alloc: Global,
    sizes: Sizes,
    name: &str,
    files: &mut F,
) -> Result<(), JournalHalt>
    requires { (F.state files.old).created ≡ 0 }
    ensures begun { let head = head_line sizes.shards sizes.cells in
        OnOk result (Stands name.now head (F.made files.old) (F.made files.new)) }
    ensures halted { let head = head_line sizes.shards sizes.cells in
        IfErr result (IsHeadHalted name.now head (F.made files.old) (F.made files.new)
        (F.state files.old).created (F.state files.new).created) }
    ensures state { JournalChanges (F.state files.old) (F.state files.new) result }
{
    if files.create(name, HEAD).is_err() {
        return Err(JournalHalt::Unmade);
    }
    let head = head_text(alloc, sizes.shards, sizes.cells)?;
    write_piece(&head, files)?;
    Ok(())
}

/// Finishes the journal, whose place is 0.
pub fn finish_journal<F: Files>(files: &mut F) -> Result<(), Unfinished>
    requires { Contains (F.state files.old).unfinished 0 }
    ensures made { SameMade (F.made files.old) (F.made files.new) }
    ensures state { FinishChanges (F.state files.old) (F.state files.new) result }
{
    match files.finish(JOURNAL) {
        Ok(()) => Ok(()),
        Err(_) => Err(Unfinished),
    }
}
