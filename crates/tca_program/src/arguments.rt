//! The arguments of commands, for `clap`, and the words that were given for them.
ghost use Rattle.std.specs.Prelude.{◌≡◌, ◌≤◌, IfOk, false, option_map};
ghost use Rattle.clap.specs.Words.{all_of, app_of, first_of, found_of, new_app, rows_of, rule_of};
ghost use Rattle.clap.specs.declared.builder.command.Command.TheViews.{out-Command as fields_of};
ghost use Rattle.tca_program.specs.Arguments.{flag, is_given, many_words, one_word, option_word};
ghost use Rattle.tca_program.specs.Words.{texts};

use clap::{Arg, ArgAction, ArgMatches, Command};
use std::alloc::{AllocError, Global};

/// A word that has to be given once.
pub fn one_word<'a>(alloc: Global, id: &'a str, help: &'a str) -> Arg<'a>
    ensures rule { rule_of result ≡ one_word id.entry.now }
    ensures local { result.global ≡ false }
{
    Arg::new(alloc, id).required(true).help(help)
}

/// A word that has to be given, from once to `most` times.
pub fn many_words<'a>(alloc: Global, id: &'a str, most: usize, help: &'a str) -> Arg<'a>
    requires { 1 ≤ most }
    ensures rule { rule_of result ≡ many_words id.entry.now most }
    ensures local { result.global ≡ false }
{
    Arg::new(alloc, id)
        .required(true)
        .num_args(1..=most)
        .help(help)
}

/// `--id WORD`, which may be left out; help has a name of its own for the word.
pub fn option_word<'a>(alloc: Global, id: &'a str, name: &'a str, help: &'a str) -> Arg<'a>
    ensures rule { rule_of result ≡ option_word id.entry.now }
    ensures local { result.global ≡ false }
{
    Arg::new(alloc, id).long(id).value_name(name).help(help)
}

/// `--id`, which may be left out and takes no word.
pub fn flag<'a>(alloc: Global, id: &'a str, help: &'a str) -> Arg<'a>
    ensures rule { rule_of result ≡ flag id.entry.now }
    ensures local { result.global ≡ false }
{
    Arg::new(alloc, id)
        .long(id)
        .action(ArgAction::SetTrue)
        .help(help)
}

/// A command without words, and what help says of it.
pub fn named<'a>(alloc: Global, name: &'a str, about: &'a str, after: &'a str) -> Command<'a>
    ensures command { app_of result ≡ new_app name.entry.now }
    ensures local { (fields_of result).has_globals ≡ false }
{
    Command::new(alloc, name).about(about).after_help(after)
}

/// The word that was given for an argument, the first where there are several.
pub fn text<'a>(matches: &ArgMatches<'a>, id: &str) -> Option<&'a str>
    ensures { option_map (λ s. s.now) result ≡ first_of id.now (rows_of (found_of matches.now)) }
{
    matches.get_str(id)
}

/// Whether a flag was given.
pub fn is_given(matches: &ArgMatches<'_>, id: &str) -> bool
    ensures { result ≡ is_given id.now (rows_of (found_of matches.now)) }
{
    match text(matches, id) {
        Some(given) => given == "true",
        None => false,
    }
}

/// All words that were given for an argument. `AllocError` comes where a growth was refused.
pub fn texts<'a>(
    alloc: Global,
    matches: &ArgMatches<'a>,
    id: &str,
) -> Result<Option<Vec<&'a str>>, AllocError>
    ensures { IfOk result (λ o. option_map (λ v. texts v.items) o
        ≡ all_of id.now (rows_of (found_of matches.now))) }
{
    let Some(words) = matches.get_raw(id) else {
        return Ok(None);
    };
    let mut list = Vec::new(alloc);
    for word in words {
        list.push(*word)?;
    }
    Ok(Some(list))
}
