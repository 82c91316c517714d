// What the words behind the command's name give.
ghost use Rattle.std.specs.Prelude.{◌≡◌, List, ℕ, IfOk, map, option_map, true};
ghost use Rattle.std.specs.List.{list_all};
ghost use Rattle.std.specs.Option.{option_copied};
ghost use Rattle.clap.specs.Words.{app_of};
ghost use Rattle.rx_words.specs.Given.{given};
ghost use Rattle.rx_words.specs.Parsed.{given_in, is_fair, parser};

use clap::error::ErrorKind;
use clap::{Arg, ArgAction, ArgMatches, Command};
use std::alloc::{AllocError, Global};

/// The values among the words.
const VALUES: &str = "values";

/// The one option, which gives a limit.
const LIMIT: &str = "max-journal";

/// The words as they were parsed, where they are values and at most one limit.
pub(crate) fn given<'a>(
    alloc: Global,
    words: &'a [&'a str],
) -> Result<Option<ArgMatches<'a>>, AllocError>
    ensures { IfOk result (λ m. option_map given_in m ≡ given (map (λ w. w.now) words.entry.now)) }
{
    if !are_fair(words) {
        return Ok(None);
    }
    parsed(alloc, words)
}

/// The values of such words.
pub(crate) fn values_in<'a>(matches: &'a ArgMatches<'_>) -> &'a [&'a str]
    ensures { map (λ v. v.now) result.now ≡ (given_in matches.entry.now).values }
{
    matches.get_raw(VALUES).unwrap_or(&[])
}

/// The limit of such words.
pub(crate) fn limit_in<'a>(matches: &'a ArgMatches<'_>) -> Option<&'a str>
    ensures { option_copied result ≡ (given_in matches.entry.now).limit }
{
    matches.get_str(LIMIT)
}

fn are_fair(words: &[&str]) -> bool
    ensures { result ≡ list_all (λ w. is_fair w.now) words.now }
{
    words.iter().all(|word| is_fair(word))
}

// A word that begins with one `-` is none, though `clap` takes `-` as a value; nor is an empty one,
// nor `--`, at which it ends the options.
fn is_fair(word: &str) -> bool
    ensures { result ≡ is_fair word.now }
{
    match word.as_bytes() {
        [first, second, _, ..] if *first == b'-' => *second == b'-',
        [first, ..] => *first != b'-',
        [] => false,
    }
}

// Fair words, as they were parsed.
fn parsed<'a>(alloc: Global, words: &'a [&'a str]) -> Result<Option<ArgMatches<'a>>, AllocError>
    requires { list_all (λ w. is_fair w.now) words.now ≡ true }
    ensures { IfOk result (λ m. option_map given_in m ≡ given (map (λ w. w.now) words.entry.now)) }
{
    match parser(alloc)?.try_get_matches_from(words) {
        Ok(matches) => Ok(Some(matches)),
        Err(error) => match error.kind() {
            ErrorKind::OutOfMemory => Err(AllocError),
            _ => Ok(None),
        },
    }
}

fn parser<'a>(alloc: Global) -> Result<Command<'a>, AllocError>
    ensures { IfOk result (λ c. app_of c ≡ parser) }
{
    let values = Arg::new(alloc, VALUES).action(ArgAction::Append);
    let limit = Arg::new(alloc, LIMIT).long(LIMIT);
    Command::new(alloc, "rx")
        .no_binary_name(true)
        .disable_help_flag(true)
        .arg(values)?
        .arg(limit)
}
