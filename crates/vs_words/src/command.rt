//! What words ask for.
ghost use Rattle.std.specs.{Prelude.{◌≡◌, ◌≤◌, Some, None, Err, IfOk, map, option_map, string_bytes}, Option.IfSome};
ghost use Rattle.vs_words.specs.Command.{IsBase, IsFirst, IsInRange, IsQueueSize, command_view, command_of, named_command, play_words, run_words, hostile_words, load_words};
ghost use Rattle.vs_words.specs.{Command.{peer_words, rings_of, queue_of, base_of, number_of, idle_of, first_of}, declared.error.WordsError.TheVariants.Usage};

use crate::error::WordsError;
use crate::number::number_in;
use crate::options::{hostile_options, load_options, peer_options, play_options, run_options};
use std::alloc::Global;
use vs_limits::{FIRST_PORT, LAST_PORT};
use vs_uds::BASE_MAX;

/// The rings that a play's driver and device share.
#[derive(Clone, Copy, Debug, PartialEq, Eq)]
pub enum Rings {
    /// Lists.
    List,
    /// The standard split rings, over a memory.
    Plain,
    /// Lock-free rings over atomic words.
    Shared,
}

/// What the words ask for.
#[derive(Clone, Copy, Debug, PartialEq, Eq)]
pub enum Command<'a> {
    /// A play of the script, over queues of so many pages. The guest's first port is `first`.
    Play {
        rings: Rings,
        queue: u16,
        first: u32,
    },
    /// A run of the script's apps, over queues of so many pages, with the host's sockets under the base path. An app gives up after so many
    /// steps in a row in which it waits. The guest's first port is `first`.
    Run {
        base: &'a str,
        queue: u16,
        idle: u32,
        first: u32,
    },
    /// A run of a hostile guest's script.
    Hostile,
    /// So many apps over queues of so many pages, which each send so many bytes to a program of the host that sends them back. The bytes begin
    /// from the number.
    Load {
        number: u32,
        conns: u32,
        bytes: u32,
        queue: u16,
    },
    /// A client that dials the base path and asks for a port of the guest. It waits for so many steps in which nothing moves.
    Peer {
        base: &'a str,
        port: u32,
        idle: u32,
    },
}

/// The command that words ask for, the program's name first.
pub fn command_of<'a>(alloc: Global, words: &'a [String]) -> Result<Command<'a>, WordsError>
    ensures command { IfOk result (λ c. command_of (map string_bytes words.entry.now) ≡ Some (command_view c)) }
    ensures range { IfOk result IsInRange }
    ensures usage { result ≡ Err Usage → command_of (map string_bytes words.entry.now) ≡ None }
{
    let [_, words @ ..] = words else {
        return Err(WordsError::Usage);
    };
    let [name, ..] = words else {
        return Err(WordsError::Usage);
    };
    named(alloc, name.as_str(), words)
}

// The command of a name; the words begin with it.
fn named<'a>(alloc: Global, name: &str, words: &'a [String]) -> Result<Command<'a>, WordsError>
    ensures command { IfOk result (λ c. named_command name.now (map string_bytes words.entry.now) ≡ Some (command_view c)) }
    ensures range { IfOk result IsInRange }
    ensures usage { result ≡ Err Usage → named_command name.now (map string_bytes words.entry.now) ≡ None }
{
    match name {
        "play" => play(alloc, words),
        "run" => run(alloc, words),
        "hostile" => hostile(alloc, words),
        "load" => load(alloc, words),
        "peer" => peer(alloc, words),
        _ => Err(WordsError::Usage),
    }
}

// The command of words whose first is `play`.
fn play<'a>(alloc: Global, words: &'a [String]) -> Result<Command<'a>, WordsError>
    ensures command { IfOk result (λ c. play_words (map string_bytes words.entry.now) ≡ Some (command_view c)) }
    ensures range { IfOk result IsInRange }
    ensures usage { result ≡ Err Usage → play_words (map string_bytes words.entry.now) ≡ None }
{
    let options = play_options(alloc, words)?;
    let Some(rings) = rings_of(options.get_str("rings")) else {
        return Err(WordsError::Usage);
    };
    let Some(queue) = queue_of(options.get_str("queue")) else {
        return Err(WordsError::Usage);
    };
    let Some(first) = first_of(options.get_str("first")) else {
        return Err(WordsError::Usage);
    };
    Ok(Command::Play {
        rings,
        queue,
        first,
    })
}

// The command of words whose first is `run`.
fn run<'a>(alloc: Global, words: &'a [String]) -> Result<Command<'a>, WordsError>
    ensures command { IfOk result (λ c. run_words (map string_bytes words.entry.now) ≡ Some (command_view c)) }
    ensures range { IfOk result IsInRange }
    ensures usage { result ≡ Err Usage → run_words (map string_bytes words.entry.now) ≡ None }
{
    let options = run_options(alloc, words)?;
    let Some(base) = base_of(options.get_str("base")) else {
        return Err(WordsError::Usage);
    };
    let Some(queue) = queue_of(options.get_str("queue")) else {
        return Err(WordsError::Usage);
    };
    let Some(idle) = idle_of(options.get_str("idle")) else {
        return Err(WordsError::Usage);
    };
    let Some(first) = first_of(options.get_str("first")) else {
        return Err(WordsError::Usage);
    };
    Ok(Command::Run {
        base,
        queue,
        idle,
        first,
    })
}

// The command of words whose first is `hostile`.
fn hostile<'a>(alloc: Global, words: &'a [String]) -> Result<Command<'a>, WordsError>
    ensures command { IfOk result (λ c. hostile_words (map string_bytes words.entry.now) ≡ Some (command_view c)) }
    ensures range { IfOk result IsInRange }
    ensures usage { result ≡ Err Usage → hostile_words (map string_bytes words.entry.now) ≡ None }
{
    hostile_options(alloc, words)?;
    Ok(Command::Hostile)
}

// The command of words whose first is `load`.
fn load<'a>(alloc: Global, words: &'a [String]) -> Result<Command<'a>, WordsError>
    ensures command { IfOk result (λ c. load_words (map string_bytes words.entry.now) ≡ Some (command_view c)) }
    ensures range { IfOk result IsInRange }
    ensures usage { result ≡ Err Usage → load_words (map string_bytes words.entry.now) ≡ None }
{
    let options = load_options(alloc, words)?;
    let Some(number) = number_of(options.get_str("number"), 0, u32::MAX) else {
        return Err(WordsError::Usage);
    };
    let Some(conns) = number_of(options.get_str("conns"), 1, 64) else {
        return Err(WordsError::Usage);
    };
    let Some(bytes) = number_of(options.get_str("bytes"), 0, 1_000_000) else {
        return Err(WordsError::Usage);
    };
    let Some(queue) = queue_of(options.get_str("queue")) else {
        return Err(WordsError::Usage);
    };
    Ok(Command::Load {
        number,
        conns,
        bytes,
        queue,
    })
}

// The command of words whose first is `peer`.
fn peer<'a>(alloc: Global, words: &'a [String]) -> Result<Command<'a>, WordsError>
    ensures command { IfOk result (λ c. peer_words (map string_bytes words.entry.now) ≡ Some (command_view c)) }
    ensures range { IfOk result IsInRange }
    ensures usage { result ≡ Err Usage → peer_words (map string_bytes words.entry.now) ≡ None }
{
    let options = peer_options(alloc, words)?;
    let Some(base) = base_of(options.get_str("base")) else {
        return Err(WordsError::Usage);
    };
    let Some(port) = number_of(options.get_str("port"), 0, u32::MAX) else {
        return Err(WordsError::Usage);
    };
    let Some(idle) = idle_of(options.get_str("idle")) else {
        return Err(WordsError::Usage);
    };
    Ok(Command::Peer { base, port, idle })
}

// The rings that an option names; lists, where it isn't given.
fn rings_of(value: Option<&str>) -> Option<Rings>
    ensures { result ≡ rings_of (option_map (λ s. s.now) value.entry) }
{
    match value {
        None => Some(Rings::List),
        Some("list") => Some(Rings::List),
        Some("plain") => Some(Rings::Plain),
        Some("shared") => Some(Rings::Shared),
        Some(_) => None,
    }
}

// The pages of each queue.
fn queue_of(value: Option<&str>) -> Option<u16>
    ensures value { result ≡ queue_of (option_map (λ s. s.now) value.entry) }
    ensures size { IfSome result IsQueueSize }
{
    match value {
        None => Some(64),
        Some("8") => Some(8),
        Some("16") => Some(16),
        Some("32") => Some(32),
        Some("64") => Some(64),
        Some("128") => Some(128),
        Some("256") => Some(256),
        Some(_) => None,
    }
}

// The base path, of 1 to 90 bytes.
fn base_of<'a>(value: Option<&'a str>) -> Option<&'a str>
    ensures value { option_map (λ s. s.now) result ≡ base_of (option_map (λ s. s.now) value.entry) }
    ensures length { IfSome result (λ base. IsBase base.now) }
{
    let base = value?;
    if base.is_empty() || base.len() > BASE_MAX {
        None
    } else {
        Some(base)
    }
}

// A number that has to be given, from `low` to `high`.
fn number_of(value: Option<&str>, low: u32, high: u32) -> Option<u32>
    ensures value { result ≡ number_of low high (option_map (λ s. s.now) value.entry) }
    ensures range { IfSome result (λ n. (low ≤ n) × (n ≤ high)) }
{
    number_in(value?, low, high)
}

// For how many steps in a row a client or an app waits; 10,000, where that isn't given.
fn idle_of(value: Option<&str>) -> Option<u32>
    ensures { result ≡ idle_of (option_map (λ s. s.now) value.entry) }
{
    match value {
        None => Some(10_000),
        Some(word) => number_in(word, 1, 1_000_000),
    }
}

// The guest's first port; the lowest, where that isn't given.
fn first_of(value: Option<&str>) -> Option<u32>
    ensures value { result ≡ first_of (option_map (λ s. s.now) value.entry) }
    ensures range { IfSome result IsFirst }
{
    match value {
        None => Some(FIRST_PORT),
        Some(word) => number_in(word, FIRST_PORT, LAST_PORT),
    }
}
