//! The form of the words: numbers in their ranges, and names counted.

ghost use Rattle.std.specs.Prelude.{◌≡◌, IfOk, map, option_map, unwrap_or, Some, None, []};
ghost use Rattle.std.specs.List.{All};
ghost use Rattle.std.specs.Str.{IsUtf8};
ghost use Rattle.clap.specs.Words.{found_of};
ghost use Rattle.command_words.specs.Words.{Workers, Shards, Cells, number_in, number_or, first_form, second_form, form_of, words_of};
ghost use Rattle.command_words.specs.inner.Answer.{said_in};
ghost use Rattle.command_words.specs.Answer.{form_in};

use crate::Words;
use crate::command::find_words;
use clap::ArgMatches;
use clap::error::ErrorKind;
use std::alloc::Global;
use texts::{Amount, OutOfMemory, read_amount};

/// One to ten digits, from `least` to `most`.
fn number(text: &str, least: u32, most: u32) -> Option<u32>
    ensures { result ≡ number_in least most text.now }
{
    if text.len() > 10 {
        return None;
    }
    match read_amount(text.as_bytes(), most) {
        Amount::Within(value) => {
            if value < least {
                return None;
            }
            Some(value)
        }
        _ => None,
    }
}

fn workers_or_four(text: Option<&str>) -> Option<u32>
    ensures { result ≡ number_or Workers 4 (option_map (λ t. t.now) text.entry) }
{
    match text {
        None => Some(4),
        Some(text) => number(text, 1, 64),
    }
}

fn shards_or_eight(text: Option<&str>) -> Option<u32>
    ensures { result ≡ number_or Shards 8 (option_map (λ t. t.now) text.entry) }
{
    match text {
        None => Some(8),
        Some(text) => number(text, 1, 64),
    }
}

fn cells_or_all(text: Option<&str>) -> Option<u32>
    ensures { result ≡ number_or Cells 16384 (option_map (λ t. t.now) text.entry) }
{
    match text {
        None => Some(16_384),
        Some(text) => number(text, 1, 65_536),
    }
}

fn session<'a>(
    names: Option<&[&'a str]>,
    workers: Option<&str>,
    shards: Option<&str>,
    cells: Option<&str>,
) -> Option<Words<'a>>
    ensures { option_map form_in result ≡ first_form (record {
      workers = option_map (λ t. t.now) workers.entry;
      shards = option_map (λ t. t.now) shards.entry;
      cells = option_map (λ t. t.now) cells.entry;
      work = None;
      names = unwrap_or (option_map (λ s. map (λ name. name.now) s.now) names.entry) [];
    }) }
{
    let workers = workers_or_four(workers)?;
    let shards = shards_or_eight(shards)?;
    let cells = cells_or_all(cells)?;
    let Some(&[netlist, timing, stimulus, journal]) = names else {
        return None;
    };
    Some(Words::Session {
        netlist,
        timing,
        stimulus,
        journal,
        workers,
        shards,
        cells,
    })
}

fn workload<'a>(
    names: Option<&[&'a str]>,
    number_text: &str,
    workers: Option<&str>,
) -> Option<Words<'a>>
    ensures { option_map form_in result ≡ second_form (record {
      workers = option_map (λ t. t.now) workers.entry;
      shards = None;
      cells = None;
      work = Some number_text.now;
      names = unwrap_or (option_map (λ s. map (λ name. name.now) s.now) names.entry) [];
    }) number_text.now }
{
    let number = number(number_text, 0, 2_147_483_647)?;
    let workers = workers_or_four(workers)?;
    let Some(&[journal]) = names else {
        return None;
    };
    Some(Words::Workload {
        number,
        journal,
        workers,
    })
}

fn form<'a>(matches: &ArgMatches<'a>) -> Option<Words<'a>>
    ensures { option_map form_in result ≡ form_of (said_in (found_of matches.now)) }
{
    let workers = matches.get_str("workers");
    let shards = matches.get_str("shards");
    let cells = matches.get_str("cells");
    let names = matches.get_strs("names");
    match matches.get_str("work") {
        None => session(names, workers, shards, cells),
        Some(number) => {
            if shards.is_some() || cells.is_some() {
                return None;
            }
            workload(names, number, workers)
        }
    }
}

fn is_text(word: &str)
    ensures { IsUtf8 word.now }
{}

/// Each word is valid text, as Rust guarantees. The function does nothing.
fn are_texts(words: &[&str])
    ensures { All (λ word. IsUtf8 word.now) words.now }
{
    for word in words {
        is_text(word);
    }
}

/// The form of the words, or `None` if they have none.
pub fn read_words<'a>(alloc: Global, words: &'a [&'a str]) -> Result<Option<Words<'a>>, OutOfMemory>
    ensures { IfOk result (λ form. option_map form_in form ≡ words_of
        (map (λ word. word.now) words.entry.now)) }
{
    are_texts(words);
    match find_words(alloc, words) {
        Ok(matches) => Ok(form(&matches)),
        Err(error) => match error.kind() {
            ErrorKind::OutOfMemory => Err(OutOfMemory),
            _ => Ok(None),
        },
    }
}
