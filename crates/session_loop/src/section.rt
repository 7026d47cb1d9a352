//! Replies and sections are written. One thread writes all, piece by piece. Where a shard has many entries, the crew makes their lines,
//! block by block, each block as several texts, which are written one after another.

ghost use Rattle.std.specs.Prelude.{◌≡◌, ◌++◌, ◌≤◌, [], length, flat_map, Contains, IfOk, OnOk};
ghost use Rattle.journal_text.specs.Spelling.{entry_line, kind_word, line_feed, shard_lines, section_lines};
ghost use Rattle.reply_lines.specs.Replies.{text_of};
ghost use Rattle.session_meaning.specs.Replies.{replies_text};
ghost use Rattle.session_loop.specs.inner.Growing.{shard_line};
ghost use Rattle.session_loop.specs.inner.Pieces.{Records, RecordsBehind, Replies, RepliesBehind};
ghost use Rattle.texts.specs.fields.Spelling.{field};

use crate::stop::{JournalStop, RepliesStop};
use backsim_io::{Files, Sink, write_all, write_file};
use journal_meaning::Entry;
use journal_text::{EntryList, SectionKind, push_entry};
use query_lines::Item;
use reply_lines::{Reply, reply_text};
use std::alloc::Global;
use texts::OutOfMemory;
use texts::fields::push_field;
use worker_gate::Crew;

/// The place of the journal, which is the first file that a session creates.
pub const JOURNAL: u32 = 0;

/// How many bytes of replies, or of a section, are kept back until they are written.
const PIECE: usize = 32_768;

/// With fewer entries their lines are made sooner one after another than several threads are started.
const ENTRIES_FOR_TWO: usize = 16_384;

/// Of how many entries at most the lines are held at once.
const BLOCK: usize = 262_144;

/// Writes a reply, by one `write_all`.
pub fn write_reply<S: Sink>(text: &[u8], out: &mut S) -> Result<(), RepliesStop>
    ensures { Replies text.now result
        (S.faults out.old) (S.written out.old) (S.faults out.new) (S.written out.new) }
{
    match write_all(out, text) {
        Ok(()) => Ok(()),
        Err(_) => Err(RepliesStop::Unwritten),
    }
}

/// Adds the reply to an item to the text that is kept back, and writes that once it is a piece long.
fn push_reply<S: Sink>(
    alloc: Global,
    item: &Item,
    reply: &Reply,
    text: &mut Vec<u8>,
    out: &mut S,
) -> Result<(), RepliesStop>
    ensures { RepliesBehind text.old.items (text_of item.now reply.now) text.new.items result
        (S.faults out.old) (S.written out.old) (S.faults out.new) (S.written out.new) }
{
    let more = reply_text(alloc, item, reply)?;
    text.extend_from_slice(&more)?;
    if text.len() < PIECE {
        return Ok(());
    }
    write_reply(text.as_slice(), out)?;
    text.clear();
    Ok(())
}

/// Writes the replies to items, in their order, piece by piece.
pub fn write_replies<S: Sink>(
    alloc: Global,
    items: &[Item],
    replies: &[Reply],
    out: &mut S,
) -> Result<(), RepliesStop>
    requires count { length replies.now ≡ length items.now }
    ensures { Replies (replies_text items.now replies.now) result
        (S.faults out.old) (S.written out.old) (S.faults out.new) (S.written out.new) }
{
    let mut text = Vec::new(alloc);
    for i in 0..items.len() {
        push_reply(alloc, &items[i], &replies[i], &mut text, out)?;
    }
    write_reply(text.as_slice(), out)
}

/// Writes a text after the bytes of the journal.
pub fn write_piece<F: Files>(text: &[u8], files: &mut F) -> Result<(), JournalStop>
    requires unfinished { Contains (F.state files.old).unfinished 0 }
    ensures { Records text.now result
        (F.state files.old) (F.made files.old) (F.state files.new) (F.made files.new) }
{
    match write_file(files, JOURNAL, text) {
        Ok(()) => Ok(()),
        Err(_) => Err(JournalStop::Unwritten),
    }
}

/// Writes the text to the journal once it is a piece long. Until then it is kept back.
fn write_full<F: Files>(text: &mut Vec<u8>, files: &mut F) -> Result<(), JournalStop>
    requires unfinished { Contains (F.state files.old).unfinished 0 }
    ensures { RecordsBehind text.old.items [] text.new.items result
        (F.state files.old) (F.made files.old) (F.state files.new) (F.made files.new) }
{
    if text.len() < PIECE {
        return Ok(());
    }
    write_piece(text.as_slice(), files)?;
    text.clear();
    Ok(())
}

/// Writes the lines of entries after the text that is kept back.
fn write_entries<F: Files>(
    entries: &[Entry],
    text: &mut Vec<u8>,
    files: &mut F,
) -> Result<(), JournalStop>
    requires unfinished { Contains (F.state files.old).unfinished 0 }
    ensures { RecordsBehind text.old.items (flat_map entry_line entries.now) text.new.items result
        (F.state files.old) (F.made files.old) (F.state files.new) (F.made files.new) }
{
    for entry in entries {
        push_entry(text, entry)?;
        write_full(text, files)?;
    }
    Ok(())
}

/// Writes texts, one after another.
fn write_texts<F: Files>(texts: &[Vec<u8>], files: &mut F) -> Result<(), JournalStop>
    requires unfinished { Contains (F.state files.old).unfinished 0 }
    ensures { Records (flat_map (λ text. text.items) texts.now) result
        (F.state files.old) (F.made files.old) (F.state files.new) (F.made files.new) }
{
    for text in texts {
        write_piece(text.as_slice(), files)?;
    }
    Ok(())
}

/// Writes the lines of entries, which the workers make.
fn write_block<C: Crew, F: Files>(
    crew: &C,
    alloc: Global,
    entries: &[Entry],
    files: &mut F,
) -> Result<(), JournalStop>
    requires unfinished { Contains (F.state files.old).unfinished 0 }
    ensures { Records (flat_map entry_line entries.now) result
        (F.state files.old) (F.made files.old) (F.state files.new) (F.made files.new) }
{
    let texts = crew.lines_of(alloc, entries)?;
    write_texts(texts.as_slice(), files)
}

/// Writes the lines of entries, block by block.
fn write_blocks<C: Crew, F: Files>(
    crew: &C,
    alloc: Global,
    entries: &[Entry],
    files: &mut F,
) -> Result<(), JournalStop>
    requires unfinished { Contains (F.state files.old).unfinished 0 }
    ensures { Records (flat_map entry_line entries.now) result
        (F.state files.old) (F.made files.old) (F.state files.new) (F.made files.new) }
{
    for block in entries.chunks(BLOCK) {
        write_block(crew, alloc, block, files)?;
    }
    Ok(())
}

/// Writes the lines of entries after the text that is kept back. Where there are many and several workers, these make them.
fn write_lines<C: Crew, F: Files>(
    crew: &C,
    alloc: Global,
    entries: &[Entry],
    text: &mut Vec<u8>,
    files: &mut F,
) -> Result<(), JournalStop>
    requires unfinished { Contains (F.state files.old).unfinished 0 }
    ensures { RecordsBehind text.old.items (flat_map entry_line entries.now) text.new.items result
        (F.state files.old) (F.made files.old) (F.state files.new) (F.made files.new) }
{
    if crew.workers() == 1 || entries.len() < ENTRIES_FOR_TWO {
        return write_entries(entries, text, files);
    }
    write_piece(text.as_slice(), files)?;
    text.clear();
    write_blocks(crew, alloc, entries, files)
}

/// Adds the line of a shard.
fn push_shard(text: &mut Vec<u8>, number: u32) -> Result<(), OutOfMemory>
    ensures { OnOk result (text.new.items ≡ text.old.items ++ shard_line number) }
{
    text.extend_from_slice(b"shard")?;
    push_field(text, number)?;
    text.push(b'\n')?;
    Ok(())
}

/// Writes the line of a shard, and those of its entries, after the text that is kept back.
fn write_shard<C: Crew, F: Files>(
    crew: &C,
    alloc: Global,
    number: u32,
    entries: &[Entry],
    text: &mut Vec<u8>,
    files: &mut F,
) -> Result<(), JournalStop>
    requires unfinished { Contains (F.state files.old).unfinished 0 }
    ensures { RecordsBehind text.old.items (shard_line number ++ flat_map entry_line entries.now)
        text.new.items result
        (F.state files.old) (F.made files.old) (F.state files.new) (F.made files.new) }
{
    push_shard(text, number)?;
    write_lines(crew, alloc, entries, text, files)
}

/// Writes the lines of all shards after the text that is kept back.
fn write_shards<C: Crew, F: Files>(
    crew: &C,
    alloc: Global,
    lists: &[EntryList],
    text: &mut Vec<u8>,
    files: &mut F,
) -> Result<(), JournalStop>
    requires few { length lists.now ≤ 4294967295 }
    requires unfinished { Contains (F.state files.old).unfinished 0 }
    ensures { RecordsBehind text.old.items (shard_lines 0 lists.now) text.new.items result
        (F.state files.old) (F.made files.old) (F.state files.new) (F.made files.new) }
{
    let mut number = 0u32;
    for list in lists {
        write_shard(crew, alloc, number, list.as_slice(), text, files)?;
        number += 1;
    }
    Ok(())
}

fn word_of(kind: SectionKind) -> &'static str
    ensures { result.now ≡ kind_word kind }
{
    match kind {
        SectionKind::Batch => "batch",
        SectionKind::Trim => "trim",
        SectionKind::Held => "held",
    }
}

/// The first line of a section.
fn head_line(alloc: Global, kind: SectionKind, number: u32) -> Result<Vec<u8>, OutOfMemory>
    ensures { IfOk result (λ text. text.items ≡ kind_word kind ++ (field number ++ line_feed)) }
{
    let mut text = Vec::from_slice(alloc, word_of(kind).as_bytes())?;
    push_field(&mut text, number)?;
    text.push(b'\n')?;
    Ok(text)
}

/// Writes a section to the journal, piece by piece, each of bounded size. The lines of a shard with many entries are made by the workers.
pub fn write_section<C: Crew, F: Files>(
    crew: &C,
    alloc: Global,
    kind: SectionKind,
    number: u32,
    lists: &[EntryList],
    files: &mut F,
) -> Result<(), JournalStop>
    requires few { length lists.now ≤ 4294967295 }
    requires unfinished { Contains (F.state files.old).unfinished 0 }
    ensures { Records
        (section_lines (record { kind = kind; number = number; shards = lists.now })) result
        (F.state files.old) (F.made files.old) (F.state files.new) (F.made files.new) }
{
    let mut text = head_line(alloc, kind, number)?;
    write_shards(crew, alloc, lists, &mut text, files)?;
    text.extend_from_slice(b"end\n")?;
    write_piece(text.as_slice(), files)
}
