//! Reading a section. Each function reads what stands at the front of the bytes, and gives the bytes after it.
ghost use Rattle.std.specs.Prelude.{◌≡◌, ◌≢◌, ℕ, List, ◌++◌, ◌≤◌, length, drop, Some, IfOk, IfSome, IfNone};
ghost use Rattle.journal_text.specs.declared.sections.Section.{Section};
ghost use Rattle.journal_text.specs.Spelling.{section_lines};
ghost use Rattle.journal_text.specs.Written.{IsSection, most_shards};
ghost use Rattle.texts.specs.fields.Reading.{read_is};
ghost use Rattle.journal_text.specs.inner.Reading.{point_at, cell_at, told_at, claimed_at, filled_at, evicted_at, dropped_at, spent_at, entry_at, entries_at, shard_at, shards_at, kind_at, section_at};

use crate::{EntryList, EntryLists, Section, SectionKind};
use journal_meaning::Entry;
use std::alloc::Global;
use texts::OutOfMemory;
use texts::fields::{after, field_of, value_of};
use valid_intervals::{Cell, Point, Span};

/// The section whose text stands at the front of the bytes, and the length of that text.
pub fn read_section(alloc: Global, text: &[u8]) -> Result<Option<(Section, usize)>, OutOfMemory>
    // What is read is a section, and its text stands at the front.
    ensures found { IfOk result (λ read. IfSome read
        (λ r. IsSection r.0 × (text.now ≡ section_lines r.0 ++ drop r.1 text.now))) }
    // The section whose text stands at the front is read.
    ensures only { (section : Section) (rest : List ℕ) → IsSection section
        → text.now ≡ section_lines section ++ rest
        → IfOk result (λ read. read ≡ Some (section, length (section_lines section))) }
    // Nothing is read only where no section's text stands at the front.
    ensures none { IfOk result (λ read. IfNone read
        ((section : Section) (rest : List ℕ) → IsSection section
        → text.now ≢ section_lines section ++ rest)) }
{
    let Some((section, rest)) = section_of(alloc, text)? else {
        return Ok(None);
    };
    let len = text.len() - rest.len();
    Ok(Some((section, len)))
}

#[tactic(auto, unfolding(crate::specs::inner::Reading::section_at))]
fn section_of(alloc: Global, text: &[u8]) -> Result<Option<(Section, &[u8])>, OutOfMemory>
    ensures { IfOk result (λ read. read_is read ≡ section_at text.now) }
{
    let Some((kind, rest)) = kind_of(text) else {
        return Ok(None);
    };
    let Some((number, rest)) = field_of(rest) else {
        return Ok(None);
    };
    let Some(rest) = after(rest, b"\n") else {
        return Ok(None);
    };
    let Some((shards, rest)) = shards_of(alloc, most(kind), rest)? else {
        return Ok(None);
    };
    let Some(rest) = after(rest, b"end\n") else {
        return Ok(None);
    };
    if number == 0 || shards.as_slice().is_empty() {
        return Ok(None);
    }
    let section = Section {
        kind,
        number,
        shards,
    };
    Ok(Some((section, rest)))
}

/// How many shards a section of this kind has at most.
fn most(kind: SectionKind) -> usize
    ensures { result ≡ most_shards kind }
{
    match kind {
        SectionKind::Batch | SectionKind::Trim => 64,
        SectionKind::Held => 1,
    }
}

#[tactic(auto, unfolding(crate::specs::inner::Reading::kind_at))]
fn kind_of(text: &[u8]) -> Option<(SectionKind, &[u8])>
    ensures { read_is result ≡ kind_at text.now }
{
    if let Some(rest) = after(text, b"batch") {
        Some((SectionKind::Batch, rest))
    } else if let Some(rest) = after(text, b"trim") {
        Some((SectionKind::Trim, rest))
    } else {
        let rest = after(text, b"held")?;
        Some((SectionKind::Held, rest))
    }
}

fn shards_of(
    alloc: Global,
    most: usize,
    text: &[u8],
) -> Result<Option<(EntryLists, &[u8])>, OutOfMemory>
    requires { most ≤ 64 }
    ensures { IfOk result (λ read. read_is read ≡ shards_at most 0 text.now) }
{
    let mut shards = Vec::new(alloc);
    let mut rest = text;
    for number in 0..most {
        let Some(line) = after(rest, b"shard") else {
            break;
        };
        let Some((entries, more)) = shard_of(alloc, number as u32, line)? else {
            return Ok(None);
        };
        shards.push(entries)?;
        rest = more;
    }
    Ok(Some((EntryLists::from_vec(shards), rest)))
}

#[tactic(auto, unfolding(crate::specs::inner::Reading::shard_at))]
fn shard_of(
    alloc: Global,
    number: u32,
    text: &[u8],
) -> Result<Option<(EntryList, &[u8])>, OutOfMemory>
    ensures { IfOk result (λ read. read_is read ≡ shard_at number text.now) }
{
    let Some((found, rest)) = field_of(text) else {
        return Ok(None);
    };
    let Some(rest) = after(rest, b"\n") else {
        return Ok(None);
    };
    if found != number {
        return Ok(None);
    }
    let (entries, rest) = entries_of(alloc, rest)?;
    Ok(Some((entries, rest)))
}

/// The entries up to the first line that is none.
fn entries_of(alloc: Global, text: &[u8]) -> Result<(EntryList, &[u8]), OutOfMemory>
    ensures { IfOk result (λ read. (read.0, read.1.now) ≡ entries_at (length text.now) text.now) }
{
    let mut entries = Vec::new(alloc);
    let mut rest = text;
    while let Some((entry, more)) = entry_of(rest) {
        entries.push(entry)?;
        rest = more;
    }
    Ok((EntryList::from_vec(entries), rest))
}

#[tactic(auto, unfolding(crate::specs::inner::Reading::entry_at))]
fn entry_of(text: &[u8]) -> Option<(Entry, &[u8])>
    ensures { read_is result ≡ entry_at text.now }
{
    if let Some(rest) = after(text, b"told") {
        told_of(rest)
    } else if let Some(rest) = after(text, b"claim") {
        claimed_of(rest)
    } else if let Some(rest) = after(text, b"fill") {
        filled_of(rest)
    } else if let Some(rest) = after(text, b"evict") {
        evicted_of(rest)
    } else if let Some(rest) = after(text, b"drop") {
        dropped_of(rest)
    } else {
        let rest = after(text, b"spent")?;
        spent_of(rest)
    }
}

#[tactic(auto, unfolding(crate::specs::inner::Reading::told_at))]
fn told_of(text: &[u8]) -> Option<(Entry, &[u8])>
    ensures { read_is result ≡ told_at text.now }
{
    let (q, rest) = field_of(text)?;
    let (p, rest) = point_of(rest)?;
    let Some((cell, rest)) = cell_of(rest) else {
        return None;
    };
    let rest = after(rest, b"\n")?;
    Some((Entry::Told { q, p, cell }, rest))
}

#[tactic(auto, unfolding(crate::specs::inner::Reading::claimed_at))]
fn claimed_of(text: &[u8]) -> Option<(Entry, &[u8])>
    ensures { read_is result ≡ claimed_at text.now }
{
    let (q, rest) = field_of(text)?;
    let (p, rest) = point_of(rest)?;
    let rest = after(rest, b"\n")?;
    Some((Entry::Claimed { q, p }, rest))
}

#[tactic(auto, unfolding(crate::specs::inner::Reading::filled_at))]
fn filled_of(text: &[u8]) -> Option<(Entry, &[u8])>
    ensures { read_is result ≡ filled_at text.now }
{
    let (q, rest) = field_of(text)?;
    let (p, rest) = point_of(rest)?;
    let Some((cell, rest)) = cell_of(rest) else {
        return None;
    };
    let rest = after(rest, b"\n")?;
    Some((Entry::Filled { q, p, cell }, rest))
}

#[tactic(auto, unfolding(crate::specs::inner::Reading::evicted_at))]
fn evicted_of(text: &[u8]) -> Option<(Entry, &[u8])>
    ensures { read_is result ≡ evicted_at text.now }
{
    let (signal, rest) = field_of(text)?;
    let (start, rest) = field_of(rest)?;
    let rest = after(rest, b"\n")?;
    Some((Entry::Evicted { signal, start }, rest))
}

#[tactic(auto, unfolding(crate::specs::inner::Reading::dropped_at))]
fn dropped_of(text: &[u8]) -> Option<(Entry, &[u8])>
    ensures { read_is result ≡ dropped_at text.now }
{
    let (q, rest) = field_of(text)?;
    let (p, rest) = point_of(rest)?;
    let rest = after(rest, b"\n")?;
    Some((Entry::Dropped { q, p }, rest))
}

#[tactic(auto, unfolding(crate::specs::inner::Reading::spent_at))]
fn spent_of(text: &[u8]) -> Option<(Entry, &[u8])>
    ensures { read_is result ≡ spent_at text.now }
{
    let (q, rest) = field_of(text)?;
    let (p, rest) = point_of(rest)?;
    let (claims, rest) = field_of(rest)?;
    let rest = after(rest, b"\n")?;
    Some((Entry::Spent { q, p, claims }, rest))
}

#[tactic(auto, unfolding(crate::specs::inner::Reading::point_at))]
fn point_of(text: &[u8]) -> Option<(Point, &[u8])>
    ensures { read_is result ≡ point_at text.now }
{
    let (signal, rest) = field_of(text)?;
    let (time, rest) = field_of(rest)?;
    Some((Point { signal, time }, rest))
}

#[tactic(auto, unfolding(crate::specs::inner::Reading::cell_at))]
fn cell_of(text: &[u8]) -> Option<(Cell, &[u8])>
    ensures { read_is result ≡ cell_at text.now }
{
    let (start, rest) = field_of(text)?;
    let (end, rest) = field_of(rest)?;
    let rest = after(rest, b" ")?;
    let (value, rest) = value_of(rest)?;
    let span = Span::new(start, end)?;
    Some((Cell { span, value }, rest))
}
