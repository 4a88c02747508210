// Parses a command's words.
ghost use Rattle.std.specs.Prelude.{◌≡◌, ◌++◌, [], IfOk, OnOk, map, option_map, string_bytes};
ghost use Rattle.std.specs.List.{cons_option};
ghost use Rattle.clap.specs.Words.{app_of, first_value, found_of};
ghost use Rattle.command_core.specs.Clap.{number_in, numbered, texts_by, word_app};
ghost use Rattle.command_core.specs.Words.{plain, words_of};

use crate::numbers::invariant_number;
use clap::error::ErrorKind;
use clap::{Arg, ArgAction, ArgMatches, Command};
use std::alloc::{AllocError, Global};
use text_core::NoMemory;

/// The parsed words of a command.
#[derive(Drop)]
pub struct GivenWords<'a> {
    /// The positional words, at most three, in order.
    pub positionals: Vec<&'a str>,
    /// The number of an invariant, from `--property`.
    pub property: Option<u32>,
}

/// Parses the words of a command, without the program's name, from left to right.
///
/// `--property J` or `--property=J` gives the number of an invariant, at most once. `--` ends the options, and `-`
/// is a positional word. Returns None for more than three positional words, and where another word before `--`
/// begins with `-`. It also returns None where the value of `--property` is missing or is no number of an
/// invariant.
pub fn read_words<'a>(
    alloc: Global,
    words: &'a [String],
) -> Result<Option<GivenWords<'a>>, NoMemory>
    ensures { IfOk result (λ given. option_map plain given ≡ words_of (map string_bytes words.now)) }
{
    let command = word_command(alloc)?;
    match command.try_get_matches_from(words) {
        Ok(matches) => given_words(alloc, &matches),
        Err(error) => {
            if error.kind() == ErrorKind::OutOfMemory {
                Err(NoMemory)
            } else {
                Ok(None)
            }
        }
    }
}

// A parser of one simple command: three positional words and one option with a value.
fn word_command<'a>(alloc: Global) -> Result<Command<'a>, AllocError>
    ensures { IfOk result (λ command. app_of command ≡ word_app) }
{
    Command::new(alloc, "words")
        .no_binary_name(true)
        .disable_help_flag(true)
        .arg(Arg::new(alloc, "first"))?
        .arg(Arg::new(alloc, "second"))?
        .arg(Arg::new(alloc, "third"))?
        .arg(
            Arg::new(alloc, "property")
                .long("property")
                .action(ArgAction::Set),
        )
}

// The words from the parser's matches. None where the value of `--property` is not a number.
fn given_words<'a>(
    alloc: Global,
    matches: &ArgMatches<'a>,
) -> Result<Option<GivenWords<'a>>, NoMemory>
    ensures { IfOk result (λ given. option_map plain given ≡ numbered (texts_by (first_value (found_of matches.now)))) }
{
    let Some(property) = number_in(matches.get_str("property")) else {
        return Ok(None);
    };
    let mut positionals = Vec::new(alloc);
    add(&mut positionals, matches.get_str("first"))?;
    add(&mut positionals, matches.get_str("second"))?;
    add(&mut positionals, matches.get_str("third"))?;
    Ok(Some(GivenWords {
        positionals,
        property,
    }))
}

// The number of an invariant, where there is a value. The outer None means that the value is not a number.
fn number_in(text: Option<&str>) -> Option<Option<u32>>
    ensures { result ≡ number_in (option_map (λ text. text.now) text.entry) }
{
    match text {
        Some(text) => Some(Some(invariant_number(text.as_bytes())?)),
        None => Some(None),
    }
}

// Appends the word, if there is one.
fn add<'a>(words: &mut Vec<&'a str>, word: Option<&'a str>) -> Result<(), NoMemory>
    ensures { OnOk result (words.new.items ≡ words.old.items ++ cons_option word.entry []) }
{
    if let Some(word) = word {
        words.push(word)?;
    }
    Ok(())
}
