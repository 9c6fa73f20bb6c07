//! The options of each command, read by `clap`.
ghost use Rattle.std.specs.Prelude.{◌≡◌, IfOk, true, [], ◌∷◌, codes, map, string_bytes};
ghost use Rattle.clap.specs.Words.{app_of, is_simple_and_free, with_rule};
ghost use Rattle.vs_words.specs.Reading.{Reads, app_with, option_rule};

use crate::error::WordsError;
use clap::{Arg, ArgMatches, Command};
use std::alloc::{AllocError, Global};

/// The options of `play`, whose name is the first of the words.
pub fn play_options<'a>(alloc: Global, words: &'a [String]) -> Result<ArgMatches<'a>, WordsError>
    ensures { Reads (codes "rings" ∷ codes "queue" ∷ codes "first" ∷ []) (map string_bytes words.entry.now) result }
{
    options(alloc, "play", &["rings", "queue", "first"], words)
}

/// The options of `run`, whose name is the first of the words.
pub fn run_options<'a>(alloc: Global, words: &'a [String]) -> Result<ArgMatches<'a>, WordsError>
    ensures { Reads (codes "base" ∷ codes "queue" ∷ codes "idle" ∷ codes "first" ∷ []) (map string_bytes words.entry.now) result }
{
    options(alloc, "run", &["base", "queue", "idle", "first"], words)
}

/// The options of `hostile`, whose name is the first of the words: it has none.
pub fn hostile_options<'a>(alloc: Global, words: &'a [String]) -> Result<ArgMatches<'a>, WordsError>
    ensures { Reads [] (map string_bytes words.entry.now) result }
{
    options(alloc, "hostile", &[], words)
}

/// The options of `load`, whose name is the first of the words.
pub fn load_options<'a>(alloc: Global, words: &'a [String]) -> Result<ArgMatches<'a>, WordsError>
    ensures { Reads (codes "number" ∷ codes "conns" ∷ codes "bytes" ∷ codes "queue" ∷ []) (map string_bytes words.entry.now) result }
{
    options(alloc, "load", &["number", "conns", "bytes", "queue"], words)
}

/// The options of `peer`, whose name is the first of the words.
pub fn peer_options<'a>(alloc: Global, words: &'a [String]) -> Result<ArgMatches<'a>, WordsError>
    ensures { Reads (codes "base" ∷ codes "port" ∷ codes "idle" ∷ []) (map string_bytes words.entry.now) result }
{
    options(alloc, "peer", &["base", "port", "idle"], words)
}

// The options of these names that words give to a command, whose name is the first of the words.
fn options<'a>(
    alloc: Global,
    name: &'a str,
    names: &[&'a str],
    words: &'a [String],
) -> Result<ArgMatches<'a>, WordsError>
    requires { is_simple_and_free (app_with name.now (map (λ n. n.now) names.now)) ≡ true }
    ensures { Reads (map (λ n. n.now) names.now) (map string_bytes words.entry.now) result }
{
    let command = command_with(alloc, name, names)?;
    Ok(command.try_get_matches_from(words)?)
}

// A command of that name, with options of these names.
fn command_with<'a>(
    alloc: Global,
    name: &'a str,
    names: &[&'a str],
) -> Result<Command<'a>, AllocError>
    ensures { IfOk result (λ c. app_of c ≡ app_with name.now (map (λ n. n.now) names.now)) }
{
    let mut command = Command::new(alloc, name).disable_help_flag(true);
    for option in names {
        command = with_option(alloc, command, option)?;
    }
    Ok(command)
}

// The same command with one option more.
fn with_option<'a>(
    alloc: Global,
    command: Command<'a>,
    name: &'a str,
) -> Result<Command<'a>, AllocError>
    ensures { IfOk result (λ c. app_of c ≡ with_rule (app_of command.entry) (option_rule name.now)) }
{
    command.arg(Arg::new(alloc, name).long(name))
}
