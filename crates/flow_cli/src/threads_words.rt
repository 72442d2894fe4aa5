// The words of a line of `run`.
ghost use Rattle.std.specs.Prelude.{◌≡◌, ◌<◌, ◌≤◌, IfOk, IfSome, map, string_bytes};
ghost use Rattle.clap.specs.Words.{app_of, found_of, rows_of};
ghost use Rattle.flow_cli.specs.RunWords.{run_app, run_asked, usual_app, workers_in, workers_of};

use crate::words::{MOST_ITEMS, Options, is_named, is_set, items_in};
use clap::builder::ValueParser;
use clap::error::ErrorKind;
use clap::{Arg, ArgAction, ArgMatches, Command as Line};
use flow_item::NoMemory;
use std::alloc::{AllocError, Global};

/// The most workers of a run.
const MOST_WORKERS: u32 = 64;

/// The workers of a run where no number is told.
const USUAL_WORKERS: u32 = 4;

/// What the words ask of a run on threads.
#[derive(Clone, Copy, Debug)]
pub struct Threaded {
    /// What they ask of any run.
    pub options: Options,
    /// How many workers there are, beside the callers.
    pub workers: u32,
}

// The command `run` with the options that `plain` has too.
fn usual_command<'a>(alloc: Global) -> Result<Line<'a>, AllocError>
    ensures { IfOk result (λ c. app_of c ≡ usual_app) }
{
    let journal = Arg::new(alloc, "journal")
        .long("journal")
        .action(ArgAction::SetTrue);
    let items = Arg::new(alloc, "items")
        .long("items")
        .action(ArgAction::Set)
        .value_parser(ValueParser::Unsigned(0, MOST_ITEMS))
        .default_value("1000000");
    Line::new(alloc, "run").arg(journal)?.arg(items)
}

// The command `run` with its options.
fn run_command<'a>(alloc: Global) -> Result<Line<'a>, AllocError>
    ensures { IfOk result (λ c. app_of c ≡ run_app) }
{
    let workers = Arg::new(alloc, "workers")
        .long("workers")
        .action(ArgAction::Set)
        .value_parser(ValueParser::Unsigned(1, MOST_WORKERS as u64))
        .default_value("4");
    let usual = usual_command(alloc)?;
    usual.arg(workers)
}

// The number of workers that a text tells.
fn workers_of(text: &str) -> u32
    ensures { result ≡ workers_of text.now }
{
    match text.parse::<u32>() {
        Ok(workers) => {
            if 1 <= workers && workers <= MOST_WORKERS {
                workers
            } else {
                USUAL_WORKERS
            }
        }
        Err(_) => USUAL_WORKERS,
    }
}

fn workers_in(matches: &ArgMatches<'_>) -> u32
    ensures { result ≡ workers_in (rows_of (found_of matches.now)) }
{
    match matches.get_str("workers") {
        Some(text) => workers_of(text),
        None => USUAL_WORKERS,
    }
}

/// What the words ask of `run`, where they are a line of it.
pub fn run_words(alloc: Global, words: &[String]) -> Result<Option<Threaded>, NoMemory>
    ensures asked { IfOk result (λ asked. asked ≡ run_asked (map string_bytes words.now)) }
    ensures workers { IfOk result (λ asked. IfSome asked (λ a. (0 < a.workers) × (a.workers ≤ 64))) }
    ensures items { IfOk result (λ asked. IfSome asked (λ a. a.options.items ≤ 2000000)) }
{
    if !is_named(words, "run") {
        return Ok(None);
    }
    let command = run_command(alloc)?;
    match command.try_get_matches_from(words) {
        Ok(matches) => {
            let journal = is_set(&matches, "journal");
            let items = items_in(&matches);
            let workers = workers_in(&matches);
            let options = Options { journal, items };
            Ok(Some(Threaded { options, workers }))
        }
        Err(error) => match error.kind() {
            ErrorKind::OutOfMemory => Err(NoMemory),
            _ => Ok(None),
        },
    }
}
