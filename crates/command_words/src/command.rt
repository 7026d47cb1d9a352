//! The command, as `clap` parses it.

ghost use Rattle.std.specs.Prelude.{◌≡◌, IfOk, map, false};
ghost use Rattle.clap.specs.Words.{app_of, rule_of, with_rule, FailsBy, fault_of, matches_of, found_of, rows_of};
ghost use Rattle.command_words.specs.inner.Command.{option_rule, names_rule, empty_app, session_app, command_app};

use clap::{Arg, ArgAction, ArgMatches, Command, Error};
use std::alloc::{AllocError, Global};

/// An option that takes one text.
fn option<'a>(alloc: Global, name: &'a str) -> Arg<'a>
    ensures rule { rule_of result ≡ option_rule name.entry.now }
    ensures local { result.global ≡ false }
{
    Arg::new(alloc, name).long(name)
}

/// The positional that takes all names.
fn names<'a>(alloc: Global) -> Arg<'a>
    ensures rule { rule_of result ≡ names_rule }
    ensures local { result.global ≡ false }
{
    Arg::new(alloc, "names").action(ArgAction::Append)
}

fn empty<'a>(alloc: Global) -> Command<'a>
    ensures { app_of result ≡ empty_app }
{
    Command::new(alloc, "backsim")
        .no_binary_name(true)
        .disable_help_flag(true)
}

/// The command with one more option.
fn with_option<'a>(
    alloc: Global,
    command: Command<'a>,
    name: &'a str,
) -> Result<Command<'a>, AllocError>
    ensures { IfOk result (λ c. app_of c ≡ with_rule (app_of command.entry)
        (option_rule name.entry.now)) }
{
    command.arg(option(alloc, name))
}

/// The command with the options of a session.
fn with_sizes<'a>(alloc: Global) -> Result<Command<'a>, AllocError>
    ensures { IfOk result (λ c. app_of c ≡ session_app) }
{
    let command = with_option(alloc, empty(alloc), "workers")?;
    let command = with_option(alloc, command, "shards")?;
    with_option(alloc, command, "cells")
}

fn command<'a>(alloc: Global) -> Result<Command<'a>, AllocError>
    ensures { IfOk result (λ c. app_of c ≡ command_app) }
{
    let command = with_option(alloc, with_sizes(alloc)?, "work")?;
    command.arg(names(alloc))
}

/// What the words say, as texts.
pub(crate) fn find_words<'a>(alloc: Global, words: &'a [&'a str]) -> Result<ArgMatches<'a>, Error>
    ensures exact { FailsBy (fault_of command_app (map (λ w. w.now) words.entry.now)) result }
    ensures found { IfOk result (λ m. rows_of (found_of m) ≡ matches_of command_app
        (map (λ w. w.now) words.entry.now)) }
{
    let command = command(alloc)?;
    command.try_get_matches_from(words)
}
