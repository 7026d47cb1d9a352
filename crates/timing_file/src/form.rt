//! The form of a line.

ghost use Rattle.std.specs.Prelude.{◌≡◌, codes};
ghost use Rattle.texts.specs.Text.{words};
ghost use Rattle.timing_file.specs.Forms as forms;
ghost use Rattle.timing_file.specs.Forms.{line_of, number_in};
ghost use Rattle.timing_file.specs.inner.Views.{line_seen};

use crate::statement::Statement;
use circuit_meaning::Clock;
use gate_values::{Kind, Value};
use texts::{Amount, content, is_name, next_word, read_amount};

/// The greatest delay, first edge and period.
const MOST: u32 = 1_000_000;

/// The greatest place of a pin.
const LAST_PLACE: u32 = 63;

/// Words read as one or more numbers in their ranges.
#[derive(Clone, Copy)]
pub enum Reading<T> {
    NotNumbers,
    Outside,
    Inside(T),
}

/// A line by its form. Where a number is outside its range, there is no statement.
#[derive(Clone, Copy)]
pub enum Form<'a> {
    Blank,
    Other,
    Version,
    /// A form of every file.
    Plain(Option<Statement<'a>>),
    /// A form of a file of version 2.
    Versioned(Option<Statement<'a>>),
}

fn read_number(word: &[u8], least: u32, greatest: u32) -> Reading<u32>
    ensures { result ≡ number_in least greatest word.now }
{
    match read_amount(word, greatest) {
        Amount::NoNumber => Reading::NotNumbers,
        Amount::Above => Reading::Outside,
        Amount::Within(value) => {
            if least <= value {
                Reading::Inside(value)
            } else {
                Reading::Outside
            }
        }
    }
}

fn read_delay(word: &[u8]) -> Reading<u32>
    ensures { result ≡ forms.delay_in word.now }
{
    read_number(word, 1, MOST)
}

fn read_clock(first: &[u8], period: &[u8]) -> Reading<Clock>
    ensures { result ≡ forms.clock_in first.now period.now }
{
    match (read_number(first, 0, MOST), read_number(period, 1, MOST)) {
        (Reading::NotNumbers, _) => Reading::NotNumbers,
        (_, Reading::NotNumbers) => Reading::NotNumbers,
        (Reading::Inside(first), Reading::Inside(period)) => Reading::Inside(Clock {
            first,
            period,
        }),
        (_, _) => Reading::Outside,
    }
}

fn read_pin(place: &[u8], delay: &[u8]) -> Reading<(u32, u32)>
    ensures { result ≡ forms.pin_in place.now delay.now }
{
    match (read_number(place, 0, LAST_PLACE), read_delay(delay)) {
        (Reading::NotNumbers, _) => Reading::NotNumbers,
        (_, Reading::NotNumbers) => Reading::NotNumbers,
        (Reading::Inside(place), Reading::Inside(delay)) => Reading::Inside((place, delay)),
        (_, _) => Reading::Outside,
    }
}

fn version_form(version: &[u8]) -> Form<'static>
    ensures { line_seen result ≡ forms.version_line version.now }
{
    if version == b"2".as_slice() {
        Form::Version
    } else {
        Form::Other
    }
}

fn default_form(delay: &[u8]) -> Form<'static>
    ensures { line_seen result ≡ forms.default_line delay.now }
{
    match read_delay(delay) {
        Reading::NotNumbers => Form::Other,
        Reading::Outside => Form::Plain(None),
        Reading::Inside(delay) => Form::Plain(Some(Statement::Default(delay))),
    }
}

fn default_of_form(kind: &[u8], delay: &[u8]) -> Form<'static>
    ensures { line_seen result ≡ forms.default_of_line kind.now delay.now }
{
    let kind = match Kind::from_word(kind) {
        None => return Form::Other,
        Some(kind) => kind,
    };
    match read_delay(delay) {
        Reading::NotNumbers => Form::Other,
        Reading::Outside => Form::Plain(None),
        Reading::Inside(delay) => Form::Plain(Some(Statement::DefaultOf(kind, delay))),
    }
}

fn common_clock_form(first: &[u8], period: &[u8]) -> Form<'static>
    ensures { line_seen result ≡ forms.common_clock_line first.now period.now }
{
    match read_clock(first, period) {
        Reading::NotNumbers => Form::Other,
        Reading::Outside => Form::Plain(None),
        Reading::Inside(clock) => Form::Plain(Some(Statement::CommonClock(clock))),
    }
}

fn delay_form<'a>(name: &'a [u8], delay: &[u8]) -> Form<'a>
    ensures { line_seen result ≡ forms.delay_line name.entry.now delay.now }
{
    if !is_name(name) {
        return Form::Other;
    }
    match read_delay(delay) {
        Reading::NotNumbers => Form::Other,
        Reading::Outside => Form::Plain(None),
        Reading::Inside(delay) => Form::Plain(Some(Statement::DelayOf(name, delay))),
    }
}

fn init_form<'a>(name: &'a [u8], value: &[u8]) -> Form<'a>
    ensures { line_seen result ≡ forms.init_line name.entry.now value.now }
{
    if !is_name(name) {
        return Form::Other;
    }
    match Value::from_word(value) {
        None => Form::Other,
        Some(Value::Z) => Form::Other,
        Some(value) => Form::Plain(Some(Statement::InitOf(name, value))),
    }
}

fn clocked_form<'a>(flop: &'a [u8], clock: &'a [u8]) -> Form<'a>
    ensures { line_seen result ≡ forms.clocked_line flop.entry.now clock.entry.now }
{
    if !is_name(flop) || !is_name(clock) {
        return Form::Other;
    }
    Form::Versioned(Some(Statement::ClockedBy(flop, clock)))
}

fn named_clock_form<'a>(name: &'a [u8], first: &[u8], period: &[u8]) -> Form<'a>
    ensures { line_seen result ≡ forms.named_clock_line name.entry.now first.now period.now }
{
    if !is_name(name) {
        return Form::Other;
    }
    match read_clock(first, period) {
        Reading::NotNumbers => Form::Other,
        Reading::Outside => Form::Versioned(None),
        Reading::Inside(clock) => Form::Versioned(Some(Statement::NamedClock(name, clock))),
    }
}

fn pin_form<'a>(name: &'a [u8], place: &[u8], delay: &[u8]) -> Form<'a>
    ensures { line_seen result ≡ forms.pin_line name.entry.now place.now delay.now }
{
    if !is_name(name) {
        return Form::Other;
    }
    match read_pin(place, delay) {
        Reading::NotNumbers => Form::Other,
        Reading::Outside => Form::Versioned(None),
        Reading::Inside((place, delay)) => Form::Versioned(Some(Statement::PinOf(
            name, place, delay,
        ))),
    }
}

fn two_words(keyword: &[u8], word: &[u8]) -> Form<'static>
    ensures { line_seen result ≡ forms.two_words keyword.now word.now }
{
    if keyword == b"version".as_slice() {
        version_form(word)
    } else if keyword == b"default".as_slice() {
        default_form(word)
    } else {
        Form::Other
    }
}

fn three_words<'a>(keyword: &[u8], second: &'a [u8], third: &'a [u8]) -> Form<'a>
    ensures { line_seen result ≡ forms.three_words keyword.now second.entry.now third.entry.now }
{
    if keyword == b"clock".as_slice() {
        common_clock_form(second, third)
    } else if keyword == b"default".as_slice() {
        default_of_form(second, third)
    } else if keyword == b"delay".as_slice() {
        delay_form(second, third)
    } else if keyword == b"init".as_slice() {
        init_form(second, third)
    } else if keyword == b"clocked".as_slice() {
        clocked_form(second, third)
    } else {
        Form::Other
    }
}

fn four_words<'a>(keyword: &[u8], name: &'a [u8], third: &[u8], fourth: &[u8]) -> Form<'a>
    ensures { line_seen result ≡ forms.four_words keyword.now name.entry.now third.now fourth.now }
{
    if keyword == b"clock".as_slice() {
        named_clock_form(name, third, fourth)
    } else if keyword == b"pin".as_slice() {
        pin_form(name, third, fourth)
    } else {
        Form::Other
    }
}

fn by_words(bytes: &[u8]) -> Form<'_>
    ensures { line_seen result ≡ forms.by_words (words bytes.entry.now) }
{
    let (keyword, rest) = match next_word(bytes) {
        None => return Form::Blank,
        Some(found) => found,
    };
    let (second, rest) = match next_word(rest) {
        None => return Form::Other,
        Some(found) => found,
    };
    let (third, rest) = match next_word(rest) {
        None => return two_words(keyword, second),
        Some(found) => found,
    };
    let (fourth, rest) = match next_word(rest) {
        None => return three_words(keyword, second, third),
        Some(found) => found,
    };
    match next_word(rest) {
        None => four_words(keyword, second, third, fourth),
        Some(_) => Form::Other,
    }
}

/// The form of a line.
#[tactic(auto, unfolding(crate::specs::Forms::line_of))]
pub fn form_of(line: &[u8]) -> Form<'_>
    ensures { line_seen result ≡ line_of line.entry.now }
{
    by_words(content(line))
}
