//! The form of a line.

ghost use Rattle.std.specs.Prelude.{◌≡◌, ◌∷◌, codes};
ghost use Rattle.texts.specs.Text.{words};
ghost use Rattle.stimulus_file.specs.Forms as forms;
ghost use Rattle.stimulus_file.specs.Forms.{line_of, setting_line};
ghost use Rattle.stimulus_file.specs.inner.Reading.{line_seen};

use gate_values::Value;
use texts::{Amount, content, is_name, next_word, read_amount};

/// The greatest horizon and the greatest time.
const LAST_TIME: u32 = 1_000_000;

/// A line by its form. A number above its range is `None`.
#[derive(Clone, Copy)]
pub enum Form<'a> {
    Blank,
    Other,
    Horizon(Option<u32>),
    Setting(&'a [u8], Option<u32>, Value),
}

/// What follows `horizon`.
#[tactic(auto, using(crate::proofs::Keywords::no_horizon))]
fn horizon_form(bytes: &[u8]) -> Form<'static>
    ensures { line_seen result ≡ forms.by_words (codes "horizon" ∷ words bytes.now) }
{
    let (horizon, rest) = match next_word(bytes) {
        None => return Form::Other,
        Some(found) => found,
    };
    if next_word(rest).is_some() {
        return Form::Other;
    }
    match read_amount(horizon, LAST_TIME) {
        Amount::NoNumber => Form::Other,
        Amount::Above => Form::Horizon(None),
        Amount::Within(horizon) => Form::Horizon(Some(horizon)),
    }
}

fn setting_of_words<'a>(name: &'a [u8], time: &[u8], value: &[u8]) -> Form<'a>
    ensures { line_seen result ≡ setting_line (codes "set") name.entry.now time.now value.now }
{
    if !is_name(name) {
        return Form::Other;
    }
    let time = read_amount(time, LAST_TIME);
    match (time, Value::from_word(value)) {
        (Amount::NoNumber, _) => Form::Other,
        (_, None) => Form::Other,
        (Amount::Above, Some(value)) => Form::Setting(name, None, value),
        (Amount::Within(time), Some(value)) => Form::Setting(name, Some(time), value),
    }
}

/// What follows `set`.
#[inline(always)]
fn setting_form(bytes: &[u8]) -> Form<'_>
    ensures { line_seen result ≡ forms.by_words (codes "set" ∷ words bytes.entry.now) }
{
    let (name, rest) = match next_word(bytes) {
        None => return Form::Other,
        Some(found) => found,
    };
    let (time, rest) = match next_word(rest) {
        None => return Form::Other,
        Some(found) => found,
    };
    let (value, rest) = match next_word(rest) {
        None => return Form::Other,
        Some(found) => found,
    };
    match next_word(rest) {
        None => setting_of_words(name, time, value),
        Some(_) => Form::Other,
    }
}

#[inline(never)]
fn keyword_form<'a>(keyword: &[u8], rest: &'a [u8]) -> Form<'a>
    ensures { line_seen result ≡ forms.by_words (keyword.now ∷ words rest.entry.now) }
{
    if keyword == b"set".as_slice() {
        return setting_form(rest);
    }
    if keyword == b"horizon".as_slice() {
        return horizon_form(rest);
    }
    Form::Other
}

/// The form of a line without a comment. Most lines begin with `set` and a space.
#[inline(always)]
fn by_words(bytes: &[u8]) -> Form<'_>
    ensures { line_seen result ≡ forms.by_words (words bytes.entry.now) }
{
    if let Some(rest) = bytes.strip_prefix(b"set ") {
        return setting_form(rest);
    }
    match next_word(bytes) {
        None => Form::Blank,
        Some((keyword, rest)) => keyword_form(keyword, rest),
    }
}

/// The form of a line that has none as it stands.
#[cold]
#[inline(never)]
#[tactic(auto, unfolding(crate::specs::Forms::line_of))]
fn by_content(line: &[u8]) -> Form<'_>
    ensures { line_seen result ≡ line_of line.entry.now }
{
    by_words(content(line))
}

/// The form of a line. A line that has a form as it stands is not searched for a comment.
pub fn form_of(line: &[u8]) -> Form<'_>
    ensures { line_seen result ≡ line_of line.entry.now }
{
    match by_words(line) {
        Form::Other => by_content(line),
        form => form,
    }
}
