//! The lines of many entries, made by several threads.

ghost use Rattle.std.specs.Prelude.{◌≡◌, ◌<◌, flat_map, map, Ok, IfOk};
ghost use Rattle.journal_text.specs.Spelling.{entry_line};

use journal_meaning::Entry;
use journal_text::push_entry;
use std::alloc::Global;
use std::thread;
use std::thread::Threads;
use texts::OutOfMemory;

/// How long a line is, at a guess.
const LINE: usize = 30;

/// The lines of entries.
fn text_of(alloc: Global, entries: &[Entry]) -> Result<Vec<u8>, OutOfMemory>
    ensures { IfOk result (λ text. text.items ≡ flat_map entry_line entries.now) }
{
    let mut text = Vec::with_capacity(alloc, entries.len().saturating_mul(LINE))?;
    for entry in entries {
        push_entry(&mut text, entry)?;
    }
    Ok(text)
}

/// The texts, if all were made.
fn all_texts(
    alloc: Global,
    parts: Vec<Result<Vec<u8>, OutOfMemory>>,
) -> Result<Vec<Vec<u8>>, OutOfMemory>
    ensures { IfOk result (λ texts. parts.items ≡ map Ok texts.items) }
{
    let mut texts = Vec::with_capacity(alloc, parts.len())?;
    for part in parts {
        texts.push(part?)?;
    }
    Ok(texts)
}

/// The lines of entries in one text. No thread is started.
pub fn lines_alone(alloc: Global, entries: &[Entry]) -> Result<Vec<Vec<u8>>, OutOfMemory>
    ensures { IfOk result (λ texts. flat_map (λ text. text.items) texts.items
        ≡ flat_map entry_line entries.now) }
{
    let mut texts = Vec::with_capacity(alloc, 1)?;
    texts.push(text_of(alloc, entries)?)?;
    Ok(texts)
}

/// The lines of entries, in texts that follow one another. Each of so many threads makes those of as many entries that stand together.
pub fn lines_of<R: Threads + Sync>(
    rt: &R,
    alloc: Global,
    entries: &[Entry],
    threads: usize,
) -> Result<Vec<Vec<u8>>, OutOfMemory>
    requires { 0 < threads }
    ensures { IfOk result (λ texts. flat_map (λ text. text.items) texts.items
        ≡ flat_map entry_line entries.now) }
{
    let size = entries.len().div_ceil(threads).max(1);
    let parts = thread::map_chunks(
        rt,
        alloc,
        entries,
        size,
        &|_start: usize, part: &[Entry]| -> Result<Vec<u8>, OutOfMemory> { text_of(alloc, part) },
    )?;
    all_texts(alloc, parts)
}
