//! The settings that the words ask for.
ghost use Rattle.std.specs.Prelude.{◌≡◌, ◌∷◌, codes, Err, IfOk, map, option_map, string_bytes};
ghost use Rattle.std.specs.List.{All};
ghost use Rattle.std.specs.Str.{IsUtf8};
ghost use Rattle.clap.specs.Words.{app_of};
ghost use Rattle.command_words.specs.Taken.{AskFor, settings_from};
ghost use Rattle.command_words.specs.Words.{gaptd, generate_of, workers_of, Answers, settings_of, settings_of_line};

use crate::numbers::number_up_to;
use clap::error::ErrorKind;
use clap::{Arg, ArgAction, Command};
use std::alloc::{AllocError, Global};

/// How many workers there are where the words don't say.
const DEFAULT_WORKERS: u64 = 4;

/// The greatest number of workers.
const MOST_WORKERS: u64 = 16;

/// The greatest number of jobs to generate.
const MOST_GENERATED: u64 = 100_000;

/// What the words ask for.
#[derive(Clone, Copy, Debug, PartialEq, Eq)]
pub struct Settings {
    /// How many workers there are, from 1 to 16.
    pub workers: u64,
    /// How many jobs to generate in place of reading the input, from 1 to 100,000.
    pub generate: Option<u64>,
    /// Whether the input is a bundle of several sessions.
    pub sessions: bool,
}

/// Why there are no settings.
#[derive(Clone, Copy, Debug, PartialEq, Eq)]
pub enum WordsError {
    /// The command doesn't take the words.
    Usage,
    /// Memory ran out.
    Memory,
}

impl From<AllocError> for WordsError {
    ghost use Rattle.std.specs.Prelude.{◌≡◌};
    ghost use Rattle.command_words.specs.declared.reading.WordsError.{WordsError};
    ghost use Rattle.command_words.specs.declared.reading.WordsError.TheVariants as errors;

    ghost from_gives = { λ _ error. error ≡ errors.Memory };

    fn from(_error: AllocError) -> WordsError {
        WordsError::Memory
    }
}

/// The command: two options, each with one value, and a flag.
fn command<'a>(alloc: Global) -> Result<Command<'a>, AllocError>
    ensures { IfOk result (λ c. app_of c ≡ gaptd) }
{
    let workers = Arg::new(alloc, "workers").long("workers");
    let generate = Arg::new(alloc, "gen").long("gen");
    let sessions = Arg::new(alloc, "sessions")
        .long("sessions")
        .action(ArgAction::SetTrue);
    Command::new(alloc, "gaptd")
        .arg(workers)?
        .arg(generate)?
        .arg(sessions)
}

/// The settings for the values of the two options and for the flag.
fn settings_with(workers: Option<&str>, generate: Option<&str>, sessions: bool) -> Option<Settings>
    ensures { result ≡ settings_from (workers_of (option_map (λ text. text.now) workers.entry)) (generate_of (option_map (λ text. text.now) generate.entry))
        (Some sessions) }
{
    let workers = match workers {
        Some(text) => number_up_to(MOST_WORKERS, text)?,
        None => DEFAULT_WORKERS,
    };
    let generate = match generate {
        Some(text) => Some(number_up_to(MOST_GENERATED, text)?),
        None => None,
    };
    if sessions && generate.is_some() {
        return None;
    }
    Some(Settings {
        workers,
        generate,
        sessions,
    })
}

/// The settings that a command line asks for, its first word the program's name.
fn read_line(alloc: Global, line: &[&str]) -> Result<Settings, WordsError>
    requires { All IsUtf8 (map (λ word. word.now) line.now) }
    ensures { Answers (settings_of_line (map (λ word. word.now) line.now)) result }
{
    match command(alloc)?.try_get_matches_from(line) {
        Ok(matches) => settings_with(
            matches.get_str("workers"),
            matches.get_str("gen"),
            matches.get_flag("sessions"),
        )
        .ok_or(WordsError::Usage),
        Err(error) if error.kind() == ErrorKind::OutOfMemory => Err(WordsError::Memory),
        Err(_) => Err(WordsError::Usage),
    }
}

/// The words with the program's name before them.
fn line_of(alloc: Global, words: &[String]) -> Result<Vec<&str>, AllocError>
    ensures { IfOk result (λ line. map (λ word. word.now) line.items ≡ codes "gaptd" ∷ map string_bytes words.now) }
{
    let mut line = Vec::new(alloc);
    line.push("gaptd")?;
    for word in words {
        line.push(word.as_str())?;
    }
    Ok(line)
}

/// The settings that the words after the program's name ask for.
///
/// The words are `--workers N` or `--workers=N`, `--gen N` or `--gen=N`, and `--sessions`, each option at most once and in any
/// order, and then perhaps `--` as the last word. Where `--workers` is absent there are 4 workers. All else is `Usage`: `--gen`
/// beside `--sessions`, an option without its value, `--sessions` with one, an option given twice, a number out of its range,
/// with a sign or with a leading zero, an abbreviated name, a positional word and an unknown option, `--help`, `-h` and
/// `--version` among them.
///
/// The clauses say this without clap. The last one ties it to what clap states of the command.
pub fn read_words(alloc: Global, words: &[String]) -> Result<Settings, WordsError>
    ensures taken { IfOk result (AskFor (map string_bytes words.now)) }
    ensures refused { result ≡ Err WordsError.Usage → (settings : Settings) → AskFor (map string_bytes words.now) settings → ⊥ }
    ensures by_clap { Answers (settings_of (map string_bytes words.now)) result }
{
    let line = line_of(alloc, words)?;
    read_line(alloc, line.as_slice())
}
