//! A unit tells its reply, and then, in the journal, its section.

ghost use Rattle.std.specs.Prelude.{◌+◌, ◌++◌, ◌≡◌, ◌≤◌, Contains, IfOk, length, vec_len};
ghost use Rattle.journal_text.specs.Spelling.{section_lines};
ghost use Rattle.journal_text.specs.declared.sections.SectionKind.TheVariants.{Batch, Trim};
ghost use Rattle.session_meaning.specs.Replies.{replies_text};
ghost use Rattle.session_loop.specs.Outside.{seen};
ghost use Rattle.session_loop.specs.inner.Desks.{IsHeldCounted};
ghost use Rattle.session_loop.specs.inner.Pieces.{Records};
ghost use Rattle.session_loop.specs.inner.Serving.{held_text};
ghost use Rattle.session_loop.specs.inner.Telling.{Tells, TellsBatch};

use crate::counting::count_section;
use crate::desk::Counts;
use crate::section::{write_replies, write_reply, write_section};
use crate::stop::{JournalStop, UnitStop};
use backsim_io::{Files, Sink};
use journal_text::{EntryList, SectionKind};
use query_lines::Item;
use std::alloc::Global;
use unit_answers::{BatchDone, QuestionDone};
use worker_gate::Crew;

/// Counts the section of a batch, and writes the replies to its items, and then this section.
pub fn tell_batch<C: Crew, F: Files, S: Sink>(
    crew: &C,
    alloc: Global,
    items: &[Item],
    done: &BatchDone,
    counts: Counts,
    files: &mut F,
    out: &mut S,
) -> Result<Counts, UnitStop>
    requires replies { vec_len done.now.replies ≡ length items.now }
    requires few { vec_len done.now.lists ≤ 4294967295 }
    requires unfinished { Contains (F.state files.old).unfinished 0 }
    ensures { TellsBatch counts (replies_text items.now done.now.replies.items)
        done.now.lists.items result
        (seen (F.state files.old) (F.made files.old) (S.faults out.old) (S.written out.old))
        (seen (F.state files.new) (F.made files.new) (S.faults out.new) (S.written out.new)) }
{
    let Some(counts) = count_section(counts, SectionKind::Batch, &done.lists) else {
        return Err(UnitStop::OutOfMemory);
    };
    let number = counts.sections;
    write_replies(alloc, items, &done.replies, out)?;
    write_section(crew, alloc, SectionKind::Batch, number, &done.lists, files)?;
    Ok(counts)
}

/// Writes the reply to a trim, and then its section, which has this number.
pub fn tell_trim<C: Crew, F: Files, S: Sink>(
    crew: &C,
    alloc: Global,
    text: &[u8],
    lists: &[EntryList],
    number: u32,
    files: &mut F,
    out: &mut S,
) -> Result<(), UnitStop>
    requires few { length lists.now ≤ 4294967295 }
    requires unfinished { Contains (F.state files.old).unfinished 0 }
    ensures { Tells text.now
        (section_lines (record { kind = Trim; number = number; shards = lists.now })) result
        (seen (F.state files.old) (F.made files.old) (S.faults out.old) (S.written out.old))
        (seen (F.state files.new) (F.made files.new) (S.faults out.new) (S.written out.new)) }
{
    write_reply(text, out)?;
    write_section(crew, alloc, SectionKind::Trim, number, lists, files)?;
    Ok(())
}

/// Writes the section of a memo of its own, if a question had one.
fn write_held<C: Crew, F: Files>(
    crew: &C,
    alloc: Global,
    lists: &[EntryList],
    counts: Counts,
    files: &mut F,
) -> Result<Counts, JournalStop>
    requires few { length lists.now ≤ 4294967295 }
    requires unfinished { Contains (F.state files.old).unfinished 0 }
    ensures counted { IfOk result (IsHeldCounted counts lists.now) }
    ensures written { Records (held_text (counts.sections + 1) lists.now) result
        (F.state files.old) (F.made files.old) (F.state files.new) (F.made files.new) }
{
    if lists.is_empty() {
        return Ok(counts);
    }
    let Some(later) = count_section(counts, SectionKind::Held, lists) else {
        return Err(JournalStop::OutOfMemory);
    };
    write_section(crew, alloc, SectionKind::Held, later.sections, lists, files)?;
    Ok(later)
}

/// Writes the reply to a question, and then its section, which is the last that was counted, and that of a memo of its own, if it has one.
pub fn tell_question<C: Crew, F: Files, S: Sink>(
    crew: &C,
    alloc: Global,
    text: &[u8],
    done: &QuestionDone,
    counts: Counts,
    files: &mut F,
    out: &mut S,
) -> Result<Counts, UnitStop>
    requires few { vec_len done.now.lists ≤ 4294967295 }
    requires held { vec_len done.now.own_lists ≤ 4294967295 }
    requires unfinished { Contains (F.state files.old).unfinished 0 }
    ensures counted { IfOk result (IsHeldCounted counts done.now.own_lists.items) }
    ensures told { Tells text.now (section_lines
        (record { kind = Batch; number = counts.sections; shards = done.now.lists.items })
        ++ held_text (counts.sections + 1) done.now.own_lists.items) result
        (seen (F.state files.old) (F.made files.old) (S.faults out.old) (S.written out.old))
        (seen (F.state files.new) (F.made files.new) (S.faults out.new) (S.written out.new)) }
{
    write_reply(text, out)?;
    write_section(
        crew,
        alloc,
        SectionKind::Batch,
        counts.sections,
        &done.lists,
        files,
    )?;
    let counts = write_held(crew, alloc, &done.own_lists, counts, files)?;
    Ok(counts)
}
