// The words of a command.
ghost use Rattle.std.specs.Prelude.{◌≡◌, ◌≤◌, IfOk, IfSome, map};
ghost use Rattle.std.specs.Option.{option_copied};
ghost use Rattle.rx_words.specs.Words.{check_of, command_by, command_of, compact_of, limit_of, run_of, serve_of, serve_with, trial_of, trial_with};
ghost use Rattle.rx_words.specs.Parsed.{given_in};

use crate::command::Command;
use crate::given::{given, limit_in, values_in};
use crate::number::number_within;
use clap::ArgMatches;
use rx_value::{RxText, is_name};
use std::alloc::{AllocError, Global};

/// The limits that a word may give: from the length of an empty journal to the greatest of 32 bits.
const LEAST_LIMIT: u64 = 9;

const MOST_LIMIT: u64 = 4_294_967_295;

/// The limit of a command that gives none.
const USUAL_LIMIT: u64 = 268_435_456;

const MOST_PORT: u64 = 65_535;

const MOST_CONNECTIONS: u64 = 1_000_000;

/// The most lines that a trial has of its own.
const MOST_LINES: u64 = 1_000_000;

/// The words after the program's name.
#[derive(Debug, Drop)]
pub struct Words {
    pub words: Vec<RxText>,
}

/// The command that the words are.
pub fn command_of(alloc: Global, words: &Words) -> Result<Option<Command>, AllocError>
    ensures { IfOk result (λ c. c ≡ command_of words.now.words.items) }
{
    let texts = texts_of(alloc, words.words.as_slice())?;
    let Some((name, rest)) = texts.split_first() else {
        return Ok(None);
    };
    match given(alloc, rest)? {
        Some(matches) => command_by(alloc, name, &matches),
        None => Ok(None),
    }
}

fn texts_of<'a>(alloc: Global, words: &'a [RxText]) -> Result<Vec<&'a str>, AllocError>
    ensures { IfOk result (λ texts. map (λ t. t.now) texts.items ≡ words.entry.now) }
{
    let mut texts = Vec::with_capacity(alloc, words.len())?;
    for word in words {
        texts.push(word.as_str())?;
    }
    Ok(texts)
}

fn command_by(
    alloc: Global,
    name: &str,
    matches: &ArgMatches<'_>,
) -> Result<Option<Command>, AllocError>
    ensures { IfOk result (λ c. c ≡ command_by name.now (given_in matches.now)) }
{
    let values = values_in(matches);
    let limit = limit_in(matches);
    match name {
        "run" => run_of(alloc, values, limit_of(limit)),
        "serve" => serve_of(alloc, values, limit_of(limit)),
        "check" => check_of(alloc, values, limit),
        "trial" => trial_of(alloc, values, limit_of(limit)),
        "compact" => compact_of(alloc, values, limit_of(limit)),
        _ => Ok(None),
    }
}

fn limit_of(word: Option<&str>) -> Option<u64>
    ensures { result ≡ limit_of (option_copied word.entry) }
{
    match word {
        Some(word) => number_within(LEAST_LIMIT, MOST_LIMIT, word),
        None => Some(USUAL_LIMIT),
    }
}

fn run_of(alloc: Global, values: &[&str], limit: Option<u64>) -> Result<Option<Command>, AllocError>
    ensures { IfOk result (λ c. c ≡ run_of (map (λ v. v.now) values.now) limit) }
{
    match (values, limit) {
        ([path], Some(limit)) => {
            let path = RxText::new(alloc, path)?;
            Ok(Some(Command::Run { path, limit }))
        }
        _ => Ok(None),
    }
}

fn serve_of(
    alloc: Global,
    values: &[&str],
    limit: Option<u64>,
) -> Result<Option<Command>, AllocError>
    ensures { IfOk result (λ c. c ≡ serve_of (map (λ v. v.now) values.now) limit) }
{
    match values {
        [path, collection, port, connections] => serve_with(
            alloc,
            path,
            collection,
            number_within(1, MOST_PORT, port),
            number_within(1, MOST_CONNECTIONS, connections),
            limit,
        ),
        _ => Ok(None),
    }
}

fn serve_with(
    alloc: Global,
    path: &str,
    collection: &str,
    port: Option<u64>,
    connections: Option<u64>,
    limit: Option<u64>,
) -> Result<Option<Command>, AllocError>
    requires port { IfSome port (λ n. n ≤ MOST_PORT) }
    requires connections { IfSome connections (λ n. n ≤ MOST_CONNECTIONS) }
    ensures { IfOk result (λ c. c ≡ serve_with path.now collection.now port connections limit) }
{
    match (port, connections, limit) {
        (Some(port), Some(connections), Some(limit)) if is_name(collection) => {
            Ok(Some(Command::Serve {
                path: RxText::new(alloc, path)?,
                collection: RxText::new(alloc, collection)?,
                port: port as u16,
                connections: connections as u32,
                limit,
            }))
        }
        _ => Ok(None),
    }
}

fn check_of(
    alloc: Global,
    values: &[&str],
    limit: Option<&str>,
) -> Result<Option<Command>, AllocError>
    ensures { IfOk result (λ c.
        c ≡ check_of (map (λ v. v.now) values.now) (option_copied limit.entry)) }
{
    match (values, limit) {
        ([path], None) => {
            let path = RxText::new(alloc, path)?;
            Ok(Some(Command::Check { path }))
        }
        _ => Ok(None),
    }
}

fn trial_of(
    alloc: Global,
    values: &[&str],
    limit: Option<u64>,
) -> Result<Option<Command>, AllocError>
    ensures { IfOk result (λ c. c ≡ trial_of (map (λ v. v.now) values.now) limit) }
{
    match values {
        [path, seed, count] => trial_with(
            alloc,
            path,
            number_within(0, u64::MAX, seed),
            number_within(0, MOST_LINES, count),
            limit,
        ),
        _ => Ok(None),
    }
}

fn trial_with(
    alloc: Global,
    path: &str,
    seed: Option<u64>,
    count: Option<u64>,
    limit: Option<u64>,
) -> Result<Option<Command>, AllocError>
    requires { IfSome count (λ n. n ≤ MOST_LINES) }
    ensures { IfOk result (λ c. c ≡ trial_with path.now seed count limit) }
{
    match (seed, count, limit) {
        (Some(seed), Some(count), Some(limit)) => {
            let path = RxText::new(alloc, path)?;
            Ok(Some(Command::Trial {
                path,
                seed,
                count: count as u32,
                limit,
            }))
        }
        _ => Ok(None),
    }
}

fn compact_of(
    alloc: Global,
    values: &[&str],
    limit: Option<u64>,
) -> Result<Option<Command>, AllocError>
    ensures { IfOk result (λ c. c ≡ compact_of (map (λ v. v.now) values.now) limit) }
{
    match (values, limit) {
        ([path, copy], Some(limit)) => Ok(Some(Command::Compact {
            path: RxText::new(alloc, path)?,
            copy: RxText::new(alloc, copy)?,
            limit,
        })),
        _ => Ok(None),
    }
}
