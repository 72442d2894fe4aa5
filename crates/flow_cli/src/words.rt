// The words of a command line.
ghost use Rattle.std.specs.Prelude.{◌≡◌, IfOk, map, string_bytes};
ghost use Rattle.clap.specs.Words.{app_of, found_of, rows_of};
ghost use Rattle.flow_cli.specs.Words.{plain_app, plain_options, gen_app, gen_options, check_app, check_asked, command_of, begins_with, is_set, items_in, items_of, count_in, count_of};

use clap::builder::ValueParser;
use clap::error::ErrorKind;
use clap::{Arg, ArgAction, ArgMatches, Command as Line};
use flow_item::NoMemory;
use std::alloc::{AllocError, Global};

/// The most items that a run may be told to bear.
pub(crate) const MOST_ITEMS: u64 = 2_000_000;

/// The items that a run may bear where no number is told.
const USUAL_ITEMS: u64 = 1_000_000;

/// A command without threads.
#[derive(Clone, Copy, Debug)]
pub enum Command {
    Plain,
    Gen,
    Check,
}

/// What the words ask of a run.
#[derive(Clone, Copy, Debug)]
pub struct Options {
    /// The report has the journal.
    pub journal: bool,
    /// The run ends where so many items were born.
    pub items: u64,
}

/// The greatest number of which a document is generated.
const MOST_COUNT: u32 = 90_000;

/// What the words ask of the generator.
#[derive(Clone, Copy, Debug)]
pub struct Generating {
    /// The number whose document it is.
    pub count: u32,
    /// The document is printed, and not run.
    pub text: bool,
}

// The command `plain` with its options.
fn plain_command<'a>(alloc: Global) -> Result<Line<'a>, AllocError>
    ensures { IfOk result (λ c. app_of c ≡ plain_app) }
{
    let journal = Arg::new(alloc, "journal")
        .long("journal")
        .action(ArgAction::SetTrue);
    let items = Arg::new(alloc, "items")
        .long("items")
        .action(ArgAction::Set)
        .value_parser(ValueParser::Unsigned(0, MOST_ITEMS))
        .default_value("1000000");
    Line::new(alloc, "plain").arg(journal)?.arg(items)
}

// The command `gen` with its number and its option.
fn gen_command<'a>(alloc: Global) -> Result<Line<'a>, AllocError>
    ensures { IfOk result (λ c. app_of c ≡ gen_app) }
{
    let count = Arg::new(alloc, "count")
        .action(ArgAction::Set)
        .value_parser(ValueParser::Unsigned(1, MOST_COUNT as u64))
        .required(true);
    let text = Arg::new(alloc, "text")
        .long("text")
        .action(ArgAction::SetTrue);
    Line::new(alloc, "gen").arg(count)?.arg(text)
}

// The command `check`, without options.
fn check_command<'a>(alloc: Global) -> Line<'a>
    ensures { app_of result ≡ check_app }
{
    Line::new(alloc, "check")
}

// The number that a text tells.
fn count_of(text: &str) -> u32
    ensures { result ≡ count_of text.now }
{
    match text.parse::<u32>() {
        Ok(count) => {
            if 1 <= count && count <= MOST_COUNT {
                count
            } else {
                1
            }
        }
        Err(_) => 1,
    }
}

fn count_in(matches: &ArgMatches<'_>) -> u32
    ensures { result ≡ count_in (rows_of (found_of matches.now)) }
{
    match matches.get_str("count") {
        Some(text) => count_of(text),
        None => 1,
    }
}

// The number of items that a text tells.
fn items_of(text: &str) -> u64
    ensures { result ≡ items_of text.now }
{
    match text.parse::<u64>() {
        Ok(items) => {
            if items <= MOST_ITEMS {
                items
            } else {
                USUAL_ITEMS
            }
        }
        Err(_) => USUAL_ITEMS,
    }
}

pub(crate) fn items_in(matches: &ArgMatches<'_>) -> u64
    ensures { result ≡ items_in (rows_of (found_of matches.now)) }
{
    match matches.get_str("items") {
        Some(text) => items_of(text),
        None => USUAL_ITEMS,
    }
}

pub(crate) fn is_set(matches: &ArgMatches<'_>, id: &str) -> bool
    ensures { result ≡ is_set id.now (rows_of (found_of matches.now)) }
{
    match matches.get_str(id) {
        Some(text) => text == "true",
        None => false,
    }
}

/// Whether the first word is this name.
pub(crate) fn is_named(words: &[String], name: &str) -> bool
    ensures { result ≡ begins_with name.now (map string_bytes words.now) }
{
    match words.first() {
        Some(word) => word.as_str() == name,
        None => false,
    }
}

/// What the words ask of `plain`, where they are a line of it.
pub fn plain_words(alloc: Global, words: &[String]) -> Result<Option<Options>, NoMemory>
    ensures { IfOk result (λ options. options ≡ plain_options (map string_bytes words.now)) }
{
    if !is_named(words, "plain") {
        return Ok(None);
    }
    let command = plain_command(alloc)?;
    match command.try_get_matches_from(words) {
        Ok(matches) => {
            let journal = is_set(&matches, "journal");
            let items = items_in(&matches);
            Ok(Some(Options { journal, items }))
        }
        Err(error) => match error.kind() {
            ErrorKind::OutOfMemory => Err(NoMemory),
            _ => Ok(None),
        },
    }
}

/// What the words ask of `gen`, where they are a line of it.
pub fn gen_words(alloc: Global, words: &[String]) -> Result<Option<Generating>, NoMemory>
    ensures { IfOk result (λ asked. asked ≡ gen_options (map string_bytes words.now)) }
{
    if !is_named(words, "gen") {
        return Ok(None);
    }
    let command = gen_command(alloc)?;
    match command.try_get_matches_from(words) {
        Ok(matches) => {
            let count = count_in(&matches);
            let text = is_set(&matches, "text");
            Ok(Some(Generating { count, text }))
        }
        Err(error) => match error.kind() {
            ErrorKind::OutOfMemory => Err(NoMemory),
            _ => Ok(None),
        },
    }
}

/// Whether the words are a line of `check`, which has no options.
pub fn check_words(alloc: Global, words: &[String]) -> Result<Option<()>, NoMemory>
    ensures { IfOk result (λ asked. asked ≡ check_asked (map string_bytes words.now)) }
{
    if !is_named(words, "check") {
        return Ok(None);
    }
    let command = check_command(alloc);
    match command.try_get_matches_from(words) {
        Ok(matches) => {
            let _ = matches;
            Ok(Some(()))
        }
        Err(error) => match error.kind() {
            ErrorKind::OutOfMemory => Err(NoMemory),
            _ => Ok(None),
        },
    }
}

/// The command that the first word names. Words that name none are left to `plain`, which refuses them.
pub(crate) fn named_command(words: &[String]) -> Command
    ensures { result ≡ command_of (map string_bytes words.now) }
{
    if is_named(words, "gen") {
        Command::Gen
    } else if is_named(words, "check") {
        Command::Check
    } else {
        Command::Plain
    }
}
