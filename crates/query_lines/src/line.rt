//! The forms of a script's lines.

ghost use Rattle.std.specs.Prelude.{◌≡◌, ◌≤◌, Some, IfOk, IfSome};
ghost use Rattle.texts.specs.Text.{words};
ghost use Rattle.query_lines.specs.Lines as lines;
ghost use Rattle.query_lines.specs.Lines.{line_of};
ghost use Rattle.query_lines.specs.declared.line.Asks.TheVariants.{Stuck};

use gate_values::Value;
use std::alloc::Global;
use texts::{Amount, OutOfMemory, Text, content, is_name, next_word, read_amount};

/// The greatest length of a line, without its line feed.
pub const LONGEST_LINE: usize = 4096;

const LAST_INSTANT: u32 = 4_294_967_294;

const GREATEST_BUDGET: u32 = 500_000;

const DEFAULT_BUDGET: u32 = 50_000;

const MOST_CELLS: u32 = 65_536;

/// What is asked of a signal: a half-open window of times, and the most evaluations that it may take. If
/// `read_line` gave it, its budget is at most 500,000.
#[derive(Drop)]
pub struct Window {
    pub name: Text,
    pub from: u32,
    pub to: u32,
    pub budget: u32,
}

/// How the answer to an item, the waveform of its window, is told.
#[derive(Clone, Copy, Debug, PartialEq, Eq)]
pub enum Tell {
    /// As the waveform.
    Wave,
    /// As the value at one time T. If `read_line` gave it, the window is [T, T + 1).
    At,
}

/// What an item of a batch asks.
#[derive(Drop)]
pub enum What {
    /// The waveform of a signal in this window, told in this way.
    Window(Window, Tell),
    /// Nothing: the line has none of the forms.
    Bad,
}

/// What a question asks of its window.
#[derive(Drop)]
pub enum Asks {
    /// When the signal first has this value.
    First(Value),
    /// Why the signal has its value at one time T. If `read_line` gave it, the window is [T, T + 1).
    Why,
    /// The waveform of the signal if the signal `site` has this value, 0 or 1, at all times.
    Stuck { site: Text, value: Value },
}

/// What a line of a script says.
#[derive(Drop)]
pub enum Line {
    /// Only blanks and a comment.
    Blank,
    /// `wave NAME FROM TO [BUDGET]` or `at NAME T [BUDGET]`.
    Ask(What),
    /// `go`: run the pending batch.
    Go,
    /// `trim N`: leave at most N cells in every shard.
    Trim(u32),
    /// `stats`: report the session's counts.
    Stats,
    /// `first NAME VALUE FROM TO [BUDGET]`: report when a signal first has a value.
    /// `why NAME T [BUDGET]`: report why a signal has its value at a time.
    /// `stuck SITE V NAME FROM TO [BUDGET]`: report the waveform of a signal if another is stuck at
    /// 0 or 1.
    Question(Window, Asks),
    /// `vcd FILE`: write the waves of the last batch to this file.
    Vcd(Text),
    /// None of these, a number above its limit, or more than 4,096 bytes.
    Bad,
}

fn number_up_to(limit: u32, word: &[u8]) -> Option<u32>
    ensures number { result ≡ lines.number_up_to limit word.now }
    ensures bound { IfSome result (λ number. number ≤ limit) }
{
    match read_amount(word, limit) {
        Amount::Within(number) => Some(number),
        Amount::NoNumber | Amount::Above => None,
    }
}

fn instant(word: &[u8]) -> Option<u32>
    ensures time { result ≡ lines.instant word.now }
    ensures bound { IfSome result (λ time. time ≤ 4294967294) }
{
    number_up_to(LAST_INSTANT, word)
}

fn budget_of(rest: &[u8]) -> Option<u32>
    ensures { result ≡ lines.budget_of (words rest.now) }
{
    match next_word(rest) {
        None => Some(DEFAULT_BUDGET),
        Some((budget, behind)) => match next_word(behind) {
            None => number_up_to(GREATEST_BUDGET, budget),
            Some(_) => None,
        },
    }
}

fn window_of_parts(
    alloc: Global,
    name: &[u8],
    from: Option<u32>,
    to: Option<u32>,
    budget: Option<u32>,
) -> Result<Option<Window>, OutOfMemory>
    ensures { IfOk result (λ window. window ≡ lines.window_of_parts name.now from to budget) }
{
    match (from, to, budget) {
        (Some(from), Some(to), Some(budget)) if is_name(name) => {
            let name = Text::from_bytes(alloc, name)?;
            Ok(Some(Window {
                name,
                from,
                to,
                budget,
            }))
        }
        _ => Ok(None),
    }
}

/// The window of a name, of which FROM TO [BUDGET] is left to be read.
fn window_of(alloc: Global, name: &[u8], rest: &[u8]) -> Result<Option<Window>, OutOfMemory>
    ensures { IfOk result (λ window. window ≡ lines.window_of name.now (words rest.now)) }
{
    let Some((from, rest)) = next_word(rest) else {
        return Ok(None);
    };
    let Some((to, rest)) = next_word(rest) else {
        return Ok(None);
    };
    window_of_parts(alloc, name, instant(from), instant(to), budget_of(rest))
}

/// The window of a name that has one time, of which T [BUDGET] is left to be read.
fn instant_of(alloc: Global, name: &[u8], rest: &[u8]) -> Result<Option<Window>, OutOfMemory>
    ensures { IfOk result (λ window. window ≡ lines.instant_of name.now (words rest.now)) }
{
    let Some((time, rest)) = next_word(rest) else {
        return Ok(None);
    };
    let Some(time) = instant(time) else {
        return Ok(None);
    };
    window_of_parts(alloc, name, Some(time), Some(time + 1), budget_of(rest))
}

fn wave_of(alloc: Global, rest: &[u8]) -> Result<Line, OutOfMemory>
    ensures { IfOk result (λ line. line ≡ lines.wave_of (words rest.now)) }
{
    let Some((name, rest)) = next_word(rest) else {
        return Ok(Line::Bad);
    };
    match window_of(alloc, name, rest)? {
        Some(window) => Ok(Line::Ask(What::Window(window, Tell::Wave))),
        None => Ok(Line::Bad),
    }
}

fn at_of(alloc: Global, rest: &[u8]) -> Result<Line, OutOfMemory>
    ensures { IfOk result (λ line. line ≡ lines.at_of (words rest.now)) }
{
    let Some((name, rest)) = next_word(rest) else {
        return Ok(Line::Bad);
    };
    match instant_of(alloc, name, rest)? {
        Some(window) => Ok(Line::Ask(What::Window(window, Tell::At))),
        None => Ok(Line::Bad),
    }
}

fn first_of(alloc: Global, rest: &[u8]) -> Result<Line, OutOfMemory>
    ensures { IfOk result (λ line. line ≡ lines.first_of (words rest.now)) }
{
    let Some((name, rest)) = next_word(rest) else {
        return Ok(Line::Bad);
    };
    let Some((value, rest)) = next_word(rest) else {
        return Ok(Line::Bad);
    };
    let Some(value) = Value::from_word(value) else {
        return Ok(Line::Bad);
    };
    match window_of(alloc, name, rest)? {
        Some(window) => Ok(Line::Question(window, Asks::First(value))),
        None => Ok(Line::Bad),
    }
}

fn why_of(alloc: Global, rest: &[u8]) -> Result<Line, OutOfMemory>
    ensures { IfOk result (λ line. line ≡ lines.why_of (words rest.now)) }
{
    let Some((name, rest)) = next_word(rest) else {
        return Ok(Line::Bad);
    };
    match instant_of(alloc, name, rest)? {
        Some(window) => Ok(Line::Question(window, Asks::Why)),
        None => Ok(Line::Bad),
    }
}

fn dump_of(alloc: Global, rest: &[u8]) -> Result<Line, OutOfMemory>
    ensures { IfOk result (λ line. line ≡ lines.dump_of (words rest.now)) }
{
    match next_word(rest) {
        Some((file, rest)) if is_name(file) && next_word(rest).is_none() => {
            Ok(Line::Vcd(Text::from_bytes(alloc, file)?))
        }
        _ => Ok(Line::Bad),
    }
}

fn level_of(word: &[u8]) -> Option<Value>
    ensures { result ≡ lines.level_of word.now }
{
    if word == b"0".as_slice() {
        Some(Value::Zero)
    } else if word == b"1".as_slice() {
        Some(Value::One)
    } else {
        None
    }
}

fn stuck_of(alloc: Global, rest: &[u8]) -> Result<Line, OutOfMemory>
    ensures { IfOk result (λ line. line ≡ lines.stuck_of (words rest.now)) }
{
    let Some((site, rest)) = next_word(rest) else {
        return Ok(Line::Bad);
    };
    let Some((value, rest)) = next_word(rest) else {
        return Ok(Line::Bad);
    };
    let Some((name, rest)) = next_word(rest) else {
        return Ok(Line::Bad);
    };
    match level_of(value) {
        Some(value) if is_name(site) => stuck_at(alloc, site, value, name, rest),
        _ => Ok(Line::Bad),
    }
}

fn stuck_at(
    alloc: Global,
    site: &[u8],
    value: Value,
    name: &[u8],
    rest: &[u8],
) -> Result<Line, OutOfMemory>
    ensures { IfOk result (λ line. line ≡ lines.question_line
        (Some (Stuck site.now value)) (lines.window_of name.now (words rest.now))) }
{
    let Some(window) = window_of(alloc, name, rest)? else {
        return Ok(Line::Bad);
    };
    let site = Text::from_bytes(alloc, site)?;
    Ok(Line::Question(window, Asks::Stuck { site, value }))
}

fn trim_of(rest: &[u8]) -> Line
    ensures { result ≡ lines.trim_of (words rest.now) }
{
    let Some((number, rest)) = next_word(rest) else {
        return Line::Bad;
    };
    match (number_up_to(MOST_CELLS, number), next_word(rest)) {
        (Some(cells), None) => Line::Trim(cells),
        _ => Line::Bad,
    }
}

fn alone(line: Line, rest: &[u8]) -> Line
    ensures { result ≡ lines.alone line (words rest.now) }
{
    match next_word(rest) {
        None => line,
        Some(_) => Line::Bad,
    }
}

/// A command by its keyword. Further commands are added here. Until then a line with their
/// keyword is bad.
fn command_of(alloc: Global, keyword: &[u8], rest: &[u8]) -> Result<Line, OutOfMemory>
    ensures { IfOk result (λ line. line ≡ lines.command_of keyword.now (words rest.now)) }
{
    if keyword == b"wave".as_slice() {
        wave_of(alloc, rest)
    } else if keyword == b"at".as_slice() {
        at_of(alloc, rest)
    } else if keyword == b"go".as_slice() {
        Ok(alone(Line::Go, rest))
    } else if keyword == b"trim".as_slice() {
        Ok(trim_of(rest))
    } else if keyword == b"stats".as_slice() {
        Ok(alone(Line::Stats, rest))
    } else if keyword == b"first".as_slice() {
        first_of(alloc, rest)
    } else if keyword == b"why".as_slice() {
        why_of(alloc, rest)
    } else if keyword == b"vcd".as_slice() {
        dump_of(alloc, rest)
    } else if keyword == b"stuck".as_slice() {
        stuck_of(alloc, rest)
    } else {
        Ok(Line::Bad)
    }
}

fn by_words(alloc: Global, bytes: &[u8]) -> Result<Line, OutOfMemory>
    ensures { IfOk result (λ line. line ≡ lines.by_words (words bytes.now)) }
{
    match next_word(bytes) {
        None => Ok(Line::Blank),
        Some((keyword, rest)) => command_of(alloc, keyword, rest),
    }
}

/// Reads one line, without its line feed. A line that has none of the forms, a number above its
/// limit, or more than 4,096 bytes is bad, and no error.
#[tactic(auto, unfolding(crate::specs::Lines::line_of))]
pub fn read_line(alloc: Global, text: &[u8]) -> Result<Line, OutOfMemory>
    ensures { IfOk result (λ line. line ≡ line_of text.now) }
{
    if text.len() > LONGEST_LINE {
        return Ok(Line::Bad);
    }
    by_words(alloc, content(text))
}
