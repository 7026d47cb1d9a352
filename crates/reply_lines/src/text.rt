//! The texts of replies.

ghost use Rattle.std.specs.Prelude.{◌≡◌, ◌++◌, ◌∷◌, [], flat_map, OnOk, IfOk, codes};
ghost use Rattle.std.specs.Fmt.{decimal};
ghost use Rattle.gate_values.specs.Spelling.{byte_of_value};
ghost use Rattle.reply_lines.specs.Replies.{text_of, text_line, run_line, end_line, unknown_line, window_line, outcome_text, wave_lines, value_line, answer_lines, first_line, explanation_lines, stuck_head, stuck_lines, question_lines, vcd_line, trimmed_line, stats_line};

use crate::reply::{Explanation, Outcome, QuestionReply, Reply, VcdReply};
use circuit_meaning::Run;
use gate_values::Value;
use itoa::Buffer;
use query_lines::{Asks, Item, Question, Tell, What, Window};
use std::alloc::Global;
use texts::{OutOfMemory, Text};
use why_proofs::proof_text;
use window_walks::Runs;

// Appends a word and the byte after it.
fn put(text: &mut Vec<u8>, word: &[u8], behind: u8) -> Result<(), OutOfMemory>
    ensures { OnOk result (text.new.items ≡ text.old.items ++ word.now ++ behind ∷ []) }
{
    text.extend_from_slice(word)?;
    text.push(behind)?;
    Ok(())
}

// Appends a number in decimal and the byte after it.
fn put_number(text: &mut Vec<u8>, number: u64, behind: u8) -> Result<(), OutOfMemory>
    ensures { OnOk result (text.new.items ≡ text.old.items ++ decimal number ++ behind ∷ []) }
{
    let mut buffer = Buffer::new();
    put(text, buffer.format(number).as_bytes(), behind)
}

fn put_run(text: &mut Vec<u8>, run: Run) -> Result<(), OutOfMemory>
    ensures { OnOk result (text.new.items ≡ text.old.items ++ run_line run) }
{
    put_number(text, run.time as u64, b' ')?;
    put(text, &[run.value.byte()], b'\n')
}

fn put_runs(text: &mut Vec<u8>, runs: &[Run]) -> Result<(), OutOfMemory>
    ensures { OnOk result (text.new.items ≡ text.old.items ++ flat_map run_line runs.now) }
{
    for run in runs {
        put_run(text, *run)?;
    }
    Ok(())
}

// Appends the line that ends the runs of a wave.
fn put_end(text: &mut Vec<u8>) -> Result<(), OutOfMemory>
    ensures { OnOk result (text.new.items ≡ text.old.items ++ end_line) }
{
    put(text, b"end", b'\n')
}

// Appends a window's name and times as the end of a line.
fn put_bounds(text: &mut Vec<u8>, window: &Window) -> Result<(), OutOfMemory>
    ensures { OnOk result (text.new.items ≡ text.old.items
        ++ text_line (window.now.name ∷ decimal window.now.from ∷ decimal window.now.to ∷ [])) }
{
    put(text, window.name.bytes(), b' ')?;
    put_number(text, window.from as u64, b' ')?;
    put_number(text, window.to as u64, b'\n')
}

// Appends a line that begins with this keyword and names a window.
fn put_window(text: &mut Vec<u8>, keyword: &[u8], window: &Window) -> Result<(), OutOfMemory>
    ensures { OnOk result (text.new.items ≡ text.old.items ++ window_line keyword.now window.now) }
{
    put(text, keyword, b' ')?;
    put_bounds(text, window)
}

fn put_unknown(text: &mut Vec<u8>, name: &[u8]) -> Result<(), OutOfMemory>
    ensures { OnOk result (text.new.items ≡ text.old.items ++ unknown_line name.now) }
{
    put(text, b"unknown", b' ')?;
    put(text, name, b'\n')
}

fn put_budget(text: &mut Vec<u8>, name: &[u8], budget: u32) -> Result<(), OutOfMemory>
    ensures { OnOk result (text.new.items ≡ text.old.items
        ++ text_line (codes "budget" ∷ name.now ∷ decimal budget ∷ [])) }
{
    put(text, b"budget", b' ')?;
    put(text, name, b' ')?;
    put_number(text, budget as u64, b'\n')
}

// Appends the line that says why a window has no answer. An answer has none.
fn put_refusal<T>(
    text: &mut Vec<u8>,
    window: &Window,
    outcome: &Outcome<T>,
) -> Result<(), OutOfMemory>
    ensures { OnOk result (text.new.items ≡ text.old.items ++ outcome_text (λ answer. []) window.now
        outcome.now) }
{
    match outcome {
        Outcome::Answer(_) => Ok(()),
        Outcome::Budget(budget) => put_budget(text, window.name.bytes(), *budget),
        Outcome::Unknown => put_unknown(text, window.name.bytes()),
        Outcome::Past => put_window(text, b"past", window),
    }
}

fn put_wave(text: &mut Vec<u8>, window: &Window, runs: &[Run]) -> Result<(), OutOfMemory>
    ensures { OnOk result (text.new.items ≡ text.old.items ++ wave_lines window.now runs.now) }
{
    put_window(text, b"wave", window)?;
    put_runs(text, runs)?;
    put_end(text)
}

fn put_value(text: &mut Vec<u8>, window: &Window, runs: &[Run]) -> Result<(), OutOfMemory>
    ensures { OnOk result (text.new.items ≡ text.old.items ++ value_line window.now runs.now) }
{
    let Some(run) = runs.first() else {
        return Ok(());
    };
    put(text, b"at", b' ')?;
    put(text, window.name.bytes(), b' ')?;
    put_run(
        text,
        Run {
            time: window.from,
            value: run.value,
        },
    )
}

// Appends what became of the window of an item.
fn put_outcome(
    text: &mut Vec<u8>,
    window: &Window,
    tell: Tell,
    outcome: &Outcome<Runs>,
) -> Result<(), OutOfMemory>
    ensures { OnOk result (text.new.items ≡ text.old.items
        ++ outcome_text (answer_lines tell window.now) window.now outcome.now) }
{
    let Outcome::Answer(runs) = outcome else {
        return put_refusal(text, window, outcome);
    };
    match tell {
        Tell::Wave => put_wave(text, window, runs.as_slice()),
        Tell::At => put_value(text, window, runs.as_slice()),
    }
}

fn put_error(text: &mut Vec<u8>, line: u32) -> Result<(), OutOfMemory>
    ensures { OnOk result (text.new.items ≡ text.old.items
        ++ text_line (codes "error" ∷ codes "line" ∷ decimal line ∷ [])) }
{
    put(text, b"error", b' ')?;
    put(text, b"line", b' ')?;
    put_number(text, line as u64, b'\n')
}

fn put_reply(text: &mut Vec<u8>, item: &Item, reply: &Reply) -> Result<(), OutOfMemory>
    ensures { OnOk result (text.new.items ≡ text.old.items ++ text_of item.now reply.now) }
{
    match (&item.what, reply) {
        (What::Window(window, tell), Reply::Window(outcome)) => {
            put_outcome(text, window, *tell, outcome)
        }
        (What::Bad, _) | (_, Reply::BadLine) => put_error(text, item.line),
    }
}

/// The text of a reply to an item: one line, or for a waveform a line with its window, a line for each run, and `end`. A bad line and a
/// reply to one have the text of an error.
pub fn reply_text(alloc: Global, item: &Item, reply: &Reply) -> Result<Vec<u8>, OutOfMemory>
    ensures { IfOk result (λ text. text.items ≡ text_of item.now reply.now) }
{
    let mut text = Vec::new(alloc);
    put_reply(&mut text, item, reply)?;
    Ok(text)
}

// Appends the window in which a value was looked for, and what was found.
fn put_found(text: &mut Vec<u8>, window: &Window, found: &[u8]) -> Result<(), OutOfMemory>
    ensures { OnOk result (text.new.items ≡ text.old.items
        ++ text_line (decimal window.now.from ∷ decimal window.now.to ∷ found.now ∷ [])) }
{
    put_number(text, window.from as u64, b' ')?;
    put_number(text, window.to as u64, b' ')?;
    put(text, found, b'\n')
}

// Appends the line that reports a first time: the time, or `none`.
fn put_first(
    text: &mut Vec<u8>,
    window: &Window,
    value: Value,
    outcome: &Outcome<Option<u32>>,
) -> Result<(), OutOfMemory>
    ensures { OnOk result (text.new.items ≡ text.old.items
        ++ outcome_text (first_line window.now value) window.now outcome.now) }
{
    let Outcome::Answer(found) = outcome else {
        return put_refusal(text, window, outcome);
    };
    put(text, b"first", b' ')?;
    put(text, window.name.bytes(), b' ')?;
    put(text, &[value.byte()], b' ')?;
    match found {
        Some(time) => {
            let mut buffer = Buffer::new();
            put_found(text, window, buffer.format(*time as u64).as_bytes())
        }
        None => put_found(text, window, b"none"),
    }
}

// Appends the line that repeats a question for a wave with a stuck signal.
fn put_stuck_head(
    text: &mut Vec<u8>,
    window: &Window,
    site: &[u8],
    value: Value,
) -> Result<(), OutOfMemory>
    ensures { OnOk result (text.new.items ≡ text.old.items
        ++ stuck_head window.now site.now value) }
{
    put(text, b"stuck", b' ')?;
    put(text, site, b' ')?;
    put(text, &[value.byte()], b' ')?;
    put_bounds(text, window)
}

// Appends a wave with a stuck signal.
fn put_stuck(
    text: &mut Vec<u8>,
    window: &Window,
    site: &[u8],
    value: Value,
    outcome: &Outcome<Runs>,
) -> Result<(), OutOfMemory>
    ensures { OnOk result (text.new.items ≡ text.old.items
        ++ outcome_text (stuck_lines window.now site.now value) window.now outcome.now) }
{
    let Outcome::Answer(runs) = outcome else {
        return put_refusal(text, window, outcome);
    };
    put_stuck_head(text, window, site, value)?;
    put_runs(text, runs.as_slice())?;
    put_end(text)
}

// The text of the reply to a question for an explanation: a proof, or one line that says why there is none.
fn why_text(
    alloc: Global,
    window: &Window,
    outcome: &Outcome<Explanation>,
) -> Result<Vec<u8>, OutOfMemory>
    ensures { IfOk result (λ text. text.items ≡ outcome_text (explanation_lines window.now)
        window.now outcome.now) }
{
    if let Outcome::Answer(Explanation { cells, value }) = outcome {
        return proof_text(alloc, window.name.bytes(), window.from, *value, cells);
    }
    let mut text = Vec::new(alloc);
    put_refusal(&mut text, window, outcome)?;
    Ok(text)
}

/// The text of the reply to a question. For a first time it is one line, for an explanation a proof, and for a wave with a stuck signal a
/// line that repeats the question, a line for each run, and `end`; or one line says why there is none. A reply to a question of another
/// kind has no text.
pub fn question_text(
    alloc: Global,
    question: &Question,
    reply: &QuestionReply,
) -> Result<Vec<u8>, OutOfMemory>
    ensures { IfOk result (λ text. text.items ≡ question_lines question.now reply.now) }
{
    let window = &question.window;
    let mut text = Vec::new(alloc);
    match (&question.asks, reply) {
        (Asks::First(value), QuestionReply::First(outcome)) => {
            put_first(&mut text, window, *value, outcome)?;
        }
        (Asks::Why, QuestionReply::Why(outcome)) => return why_text(alloc, window, outcome),
        (Asks::Stuck { site, value }, QuestionReply::Stuck(outcome)) => {
            put_stuck(&mut text, window, site.bytes(), *value, outcome)?;
        }
        (Asks::Stuck { site, .. }, QuestionReply::UnknownSite) => {
            put_unknown(&mut text, site.bytes())?;
        }
        _ => {}
    }
    Ok(text)
}

/// The text of the reply to a request for a dump under this name: one line.
pub fn dump_text(alloc: Global, file: &Text, reply: VcdReply) -> Result<Vec<u8>, OutOfMemory>
    ensures { IfOk result (λ text. text.items ≡ vcd_line file.now reply) }
{
    let mut text = Vec::new(alloc);
    put(&mut text, b"vcd", b' ')?;
    match reply {
        VcdReply::Taken => {
            put(&mut text, b"taken", b' ')?;
            put(&mut text, file.bytes(), b'\n')?;
        }
        VcdReply::NoBatch => put(&mut text, b"none", b'\n')?,
        VcdReply::Full => put(&mut text, b"full", b'\n')?,
        VcdReply::Made(wires) => {
            put(&mut text, file.bytes(), b' ')?;
            put(&mut text, b"wires", b' ')?;
            put_number(&mut text, wires as u64, b'\n')?;
        }
    }
    Ok(text)
}

/// The text of the reply to a trim: how many cells it removed in all shards.
pub fn trimmed_text(alloc: Global, cells: u64) -> Result<Vec<u8>, OutOfMemory>
    ensures { IfOk result (λ text. text.items ≡ trimmed_line cells) }
{
    let mut text = Vec::new(alloc);
    put(&mut text, b"trimmed", b' ')?;
    put_number(&mut text, cells, b'\n')?;
    Ok(text)
}

// Appends a count after its name.
fn put_count(text: &mut Vec<u8>, name: &[u8], count: u64, behind: u8) -> Result<(), OutOfMemory>
    ensures { OnOk result (text.new.items ≡ text.old.items
        ++ (name.now ++ 32 ∷ (decimal count ++ behind ∷ []))) }
{
    put(text, name, b' ')?;
    put_number(text, count, behind)
}

/// The text of the reply to a request for the session's counts.
pub fn stats_text(
    alloc: Global,
    batches: u64,
    fills: u64,
    evictions: u64,
    cells: u64,
) -> Result<Vec<u8>, OutOfMemory>
    ensures { IfOk result (λ text. text.items ≡ stats_line batches fills evictions cells) }
{
    let mut text = Vec::new(alloc);
    put(&mut text, b"stats", b' ')?;
    put_count(&mut text, b"batches", batches, b' ')?;
    put_count(&mut text, b"fills", fills, b' ')?;
    put_count(&mut text, b"evictions", evictions, b' ')?;
    put_count(&mut text, b"cells", cells, b'\n')?;
    Ok(text)
}
