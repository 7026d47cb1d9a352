//! The forms of a line.

ghost use Rattle.std.specs.Prelude.{◌≡◌, List, ℕ, length, false, IfOk, ◌==◌, nat_eq};
ghost use Rattle.std.specs.Borrow.{Bor};
ghost use Rattle.bench_reader.specs.Lines as form;
ghost use Rattle.gate_values.specs.Spelling.{spells};
ghost use Rattle.texts.specs.Text.{line_tokens, starts_with_name};
ghost use Rattle.bench_reader.specs.Views.{view};
ghost use Rattle.bench_reader.specs.inner.Views.{names_if, is_close};

use smallvec::SmallVec;
use std::alloc::AllocError;
use texts::{has_no_token, next_mark, next_name};

/// A line, read by its form. The kind of a gate is any name, and its pins are kept apart.
#[derive(Clone, Copy)]
pub enum Form<'a> {
    Blank,
    /// None of the forms.
    Malformed,
    Input(&'a [u8]),
    Output(&'a [u8]),
    Gate { name: &'a [u8], kind: &'a [u8] },
}

/// Whether a word is this keyword, in either case.
fn is_keyword(word: &[u8], keyword: &[u8]) -> bool
    ensures { result ≡ spells word.now keyword.now }
{
    word.eq_ignore_ascii_case(keyword)
}

fn port_of<'a>(word: &[u8], name: &'a [u8]) -> Form<'a>
    ensures { (pins : List (Bor (List ℕ))) → view pins result
        ≡ form.port_of word.now name.entry.now }
{
    if is_keyword(word, b"input") {
        return Form::Input(name);
    }
    if is_keyword(word, b"output") {
        return Form::Output(name);
    }
    Form::Malformed
}

/// What follows `word (`.
fn port_form<'a>(word: &[u8], bytes: &'a [u8]) -> Form<'a>
    ensures { (pins : List (Bor (List ℕ))) → view pins result
        ≡ form.port_line word.now (line_tokens bytes.entry.now) }
{
    let (name, rest) = match next_name(bytes) {
        None => return Form::Malformed,
        Some(found) => found,
    };
    let (mark, rest) = match next_mark(rest) {
        None => return Form::Malformed,
        Some(found) => found,
    };
    if mark != b')' {
        return Form::Malformed;
    }
    if !has_no_token(rest) {
        return Form::Malformed;
    }
    port_of(word, name)
}

/// Reads names divided by `,`, and then `)`; and whether these are all tokens.
#[inline(always)]
fn read_list<'a>(listed: &mut SmallVec<&'a [u8], 4>, bytes: &'a [u8]) -> Result<bool, AllocError>
    ensures { IfOk result (λ ended. names_if ended listed.new.items
        ≡ form.pin_list (line_tokens bytes.entry.now)) }
{
    listed.clear();
    let mut rest = bytes;
    'names: loop {
        let (name, after) = match next_name(rest) {
            None => return Ok(false),
            Some(found) => found,
        };
        let (mark, after) = match next_mark(after) {
            None => return Ok(false),
            Some(found) => found,
        };
        listed.push(name)?;
        if mark == b')' {
            return Ok(has_no_token(after));
        }
        if mark != b',' {
            return Ok(false);
        }
        rest = after;
    }
}

/// Whether `)` is the only token.
#[cold]
fn is_closed(bytes: &[u8]) -> bool
    ensures { result ≡ is_close (line_tokens bytes.now) }
{
    match next_mark(bytes) {
        None => false,
        Some((mark, rest)) => mark == b')' && has_no_token(rest),
    }
}

/// Reads the pins after `(`, and whether they are a list with its end.
#[inline(always)]
fn read_pins<'a>(listed: &mut SmallVec<&'a [u8], 4>, bytes: &'a [u8]) -> Result<bool, AllocError>
    ensures { IfOk result (λ ended. names_if ended listed.new.items
        ≡ form.pins_of (line_tokens bytes.entry.now)) }
{
    if read_list(listed, bytes)? {
        return Ok(true);
    }
    listed.clear();
    Ok(is_closed(bytes))
}

/// What follows `name =`.
#[inline(always)]
fn gate_form<'a>(
    name: &'a [u8],
    listed: &mut SmallVec<&'a [u8], 4>,
    bytes: &'a [u8],
) -> Result<Form<'a>, AllocError>
    ensures { IfOk result (λ found. view listed.new.items found
        ≡ form.gate_line name.entry.now (line_tokens bytes.entry.now)) }
{
    let (kind, rest) = match next_name(bytes) {
        None => return Ok(Form::Malformed),
        Some(found) => found,
    };
    let (mark, rest) = match next_mark(rest) {
        None => return Ok(Form::Malformed),
        Some(found) => found,
    };
    if mark != b'(' {
        return Ok(Form::Malformed);
    }
    if read_pins(listed, rest)? {
        return Ok(Form::Gate { name, kind });
    }
    Ok(Form::Malformed)
}

/// The form of a line that begins with no name.
#[cold]
fn unnamed_form<'a>(line: &[u8]) -> Form<'a>
    requires { starts_with_name (line_tokens line.now) ≡ false }
    ensures { (pins : List (Bor (List ℕ))) → view pins result
        ≡ form.by_tokens (line_tokens line.now) }
{
    if has_no_token(line) {
        return Form::Blank;
    }
    Form::Malformed
}

/// The form of a line. The names of its list, if it is a gate's, are put into `listed`.
#[inline(always)]
pub fn form_of<'a>(
    listed: &mut SmallVec<&'a [u8], 4>,
    line: &'a [u8],
) -> Result<Form<'a>, AllocError>
    ensures { IfOk result (λ found. view listed.new.items found
        ≡ form.by_tokens (line_tokens line.entry.now)) }
{
    let (first, rest) = match next_name(line) {
        None => return Ok(unnamed_form(line)),
        Some(found) => found,
    };
    let (mark, rest) = match next_mark(rest) {
        None => return Ok(Form::Malformed),
        Some(found) => found,
    };
    if mark == b'=' {
        return gate_form(first, listed, rest);
    }
    if mark == b'(' {
        return Ok(port_form(first, rest));
    }
    Ok(Form::Malformed)
}
