//! The words of the command line.
ghost use Rattle.std.specs.Prelude.{◌≤◌, IfOk};

use anyhow::Result;
use clap::{Arg, ArgAction, ArgMatches, Command, value_parser};
use std::alloc::{AllocError, Global};

/// A byte of the log that reads as one more than it is.
#[derive(Clone, Copy)]
pub struct Change {
    /// The number of the first read of the log that gives it so, from 0.
    pub from: u64,
    /// Its place.
    pub place: u64,
}

/// Which calls of the streams and the store fail, and what a crash leaves at the end.
#[derive(Drop)]
pub struct Faults {
    /// How many bytes a read gives at most: 1 or more.
    pub reads_of: usize,
    /// How many bytes a write takes at most: 1 or more.
    pub writes_of: usize,
    /// The numbers of the reads that fail, from 0.
    pub reads: Vec<u64>,
    /// The numbers of the writes that fail, from 0.
    pub writes: Vec<u64>,
    /// The numbers of the store's calls that fail, from 0.
    pub calls: Vec<u64>,
    /// How many calls of the store pass before each fails; None: they don't fail.
    pub passes: Option<u64>,
    /// The choice of the crash at the end; None: there is none.
    pub crash: Option<u32>,
    /// What the log reads otherwise; None: it reads as it is.
    pub change: Option<Change>,
}

fn number<'a>(alloc: Global, name: &'a str, help: &'a str) -> Arg<'a> {
    Arg::new(alloc, name)
        .long(name)
        .help(help)
        .value_parser(value_parser!(u64))
        .action(ArgAction::Set)
}

fn numbers<'a>(alloc: Global, name: &'a str, help: &'a str) -> Arg<'a> {
    number(alloc, name, help).action(ArgAction::Append)
}

/// The command line's form.
pub fn command<'a>(alloc: Global) -> Result<Command<'a>, AllocError> {
    let crash = number(
        alloc,
        "crash",
        "Cuts the store behind the run, by this choice",
    )
    .value_parser(value_parser!(u32));
    let words = Arg::new(alloc, "words")
        .last(true)
        .num_args(0..)
        .help("The words of dali");
    Command::new(alloc, "dali_trial")
        .about("Runs dali over a store in memory, with faults")
        .arg(number(alloc, "reads-of", "Bytes that a read gives at most"))?
        .arg(number(alloc, "writes-of", "Bytes that a write takes at most"))?
        .arg(numbers(alloc, "fail-read", "Fails the read with this number"))?
        .arg(numbers(alloc, "fail-write", "Fails the write with this number"))?
        .arg(numbers(alloc, "fail-call", "Fails the store's call so"))?
        .arg(number(alloc, "passes", "Fails all its calls behind so many"))?
        .arg(crash)?
        .arg(number(
            alloc,
            "unsteady",
            "Reads of the log with this number and later ones are changed",
        ))?
        .arg(number(
            alloc,
            "unsteady-at",
            "The place of the byte that they change",
        ))?
        .arg(words)
}

// How many bytes a read gives or a write takes: at least one.
fn piece_of(matches: &ArgMatches, name: &str, usual: u64) -> usize
    ensures { 1 ≤ result }
{
    matches.get_one::<u64>(name).unwrap_or(usual).max(1) as usize
}

// The numbers of all uses of an option.
fn numbers_of(alloc: Global, matches: &ArgMatches, name: &str) -> Result<Vec<u64>> {
    let mut numbers = Vec::new(alloc);
    for text in matches.get_strs(name).unwrap_or(&[]) {
        numbers.push(text.parse::<u64>()?)?;
    }
    Ok(numbers)
}

// What the log reads otherwise.
fn change_of(matches: &ArgMatches) -> Option<Change> {
    let from = matches.get_one::<u64>("unsteady")?;
    let place = matches.get_one::<u64>("unsteady-at").unwrap_or(0);
    Some(Change { from, place })
}

/// The faults that the matches ask for.
pub fn faults_of(alloc: Global, matches: &ArgMatches) -> Result<Faults>
    ensures reads { IfOk result (λ faults. 1 ≤ faults.reads_of) }
    ensures writes { IfOk result (λ faults. 1 ≤ faults.writes_of) }
{
    Ok(Faults {
        reads_of: piece_of(matches, "reads-of", 7),
        writes_of: piece_of(matches, "writes-of", 5),
        reads: numbers_of(alloc, matches, "fail-read")?,
        writes: numbers_of(alloc, matches, "fail-write")?,
        calls: numbers_of(alloc, matches, "fail-call")?,
        passes: matches.get_one::<u64>("passes"),
        crash: matches.get_one::<u32>("crash"),
        change: change_of(matches),
    })
}

/// The words of `dali`.
pub fn words_of(alloc: Global, matches: &ArgMatches) -> Result<Vec<String>> {
    let mut words = Vec::new(alloc);
    for word in matches.get_strs("words").unwrap_or(&[]) {
        words.push(String::from_str(alloc, word)?)?;
    }
    Ok(words)
}
