//! Writing the head and the entries. The line of an entry is written from its end to its front: each part
//! is written so that it ends at `end`, where the next part starts, and its own start is returned.
ghost use Rattle.std.specs.Prelude.{◌≡◌, ◌+◌, ◌≤◌, ◌++◌, length, drop, OnOk, IfOk};
ghost use Rattle.texts.specs.fields.Spelling.{field};
ghost use Rattle.journal_text.specs.Spelling.{point, cell, line_feed, entry_line, head_line};

use journal_meaning::Entry;
use std::alloc::Global;
use texts::OutOfMemory;
use texts::fields::{push_field, write_field};
use valid_intervals::{Cell, Point};

/// The length of the longest line of an entry.
const LONGEST_LINE: usize = 62;

/// The first line of a journal: how many shards there are, and how many cells each may store.
pub fn head_text(alloc: Global, shards: u32, cells: u32) -> Result<Vec<u8>, OutOfMemory>
    ensures { IfOk result (λ text. text.items ≡ head_line shards cells) }
{
    let mut text = Vec::from_slice(alloc, b"journal shards")?;
    push_field(&mut text, shards)?;
    text.extend_from_slice(b" cells")?;
    push_field(&mut text, cells)?;
    text.push(b'\n')?;
    Ok(text)
}

/// The line of an entry.
pub fn entry_text(alloc: Global, entry: &Entry) -> Result<Vec<u8>, OutOfMemory>
    ensures { IfOk result (λ text. text.items ≡ entry_line entry.now) }
{
    let mut text = Vec::new(alloc);
    push_entry(&mut text, entry)?;
    Ok(text)
}

/// Writes the line of an entry at the end of the text.
pub fn push_entry(text: &mut Vec<u8>, entry: &Entry) -> Result<(), OutOfMemory>
    ensures { OnOk result (text.new.items ≡ text.old.items ++ entry_line entry.now) }
{
    let mut line = [b'\n'; LONGEST_LINE];
    let start = write_entry(entry, &mut line, LONGEST_LINE - 1);
    text.extend_from_slice(&line[start..])?;
    Ok(())
}

/// Writes the parts of an entry's line in front of its line feed.
fn write_entry(entry: &Entry, line: &mut [u8], end: usize) -> usize
    requires { (61 ≤ end) × (end ≤ length line.old) }
    ensures within { result ≤ end }
    ensures written { drop end line.old ≡ line_feed → drop result line.new ≡ entry_line entry.now }
{
    match entry {
        Entry::Told { q, p, cell } => {
            let end = write_cell(cell, line, end);
            let end = write_query(*q, p, line, end);
            write_word(b"told", line, end)
        }
        Entry::Claimed { q, p } => {
            let end = write_query(*q, p, line, end);
            write_word(b"claim", line, end)
        }
        Entry::Filled { q, p, cell } => {
            let end = write_cell(cell, line, end);
            let end = write_query(*q, p, line, end);
            write_word(b"fill", line, end)
        }
        Entry::Evicted { signal, start } => {
            let end = write_field(*start, line, end);
            let end = write_field(*signal, line, end);
            write_word(b"evict", line, end)
        }
        Entry::Dropped { q, p } => {
            let end = write_query(*q, p, line, end);
            write_word(b"drop", line, end)
        }
        Entry::Spent { q, p, claims } => {
            let end = write_field(*claims, line, end);
            let end = write_query(*q, p, line, end);
            write_word(b"spent", line, end)
        }
    }
}

/// Writes a word. Where it is a constant, this is one store or two.
#[inline(always)]
fn write_word(word: &[u8], line: &mut [u8], end: usize) -> usize
    requires { (length word.now ≤ end) × (end ≤ length line.old) }
    ensures within { result ≤ end }
    ensures written { drop result line.new ≡ word.now ++ drop end line.old }
{
    let start = end - word.len();
    line[start..end].copy_from_slice(word);
    start
}

/// Writes a query, a signal and a time, each after a blank.
fn write_query(q: u32, p: &Point, line: &mut [u8], end: usize) -> usize
    requires { (33 ≤ end) × (end ≤ length line.old) }
    ensures within { (result ≤ end) × (end ≤ result + 33) }
    ensures written { drop result line.new ≡ field q ++ (point p.now ++ drop end line.old) }
{
    let end = write_field(p.time, line, end);
    let end = write_field(p.signal, line, end);
    write_field(q, line, end)
}

/// Writes a start, an end and a value, each after a blank.
fn write_cell(c: &Cell, line: &mut [u8], end: usize) -> usize
    requires { (24 ≤ end) × (end ≤ length line.old) }
    ensures within { (result ≤ end) × (end ≤ result + 24) }
    ensures written { drop result line.new ≡ cell c.now ++ drop end line.old }
{
    line[end - 1] = c.value.byte();
    line[end - 2] = b' ';
    let end = write_field(c.span.end(), line, end - 2);
    write_field(c.span.start(), line, end)
}
