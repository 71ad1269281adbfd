//! The words of the command line.
use anyhow::Result;
use clap::{Arg, ArgAction, ArgMatches, Command, value_parser};
use std::alloc::{AllocError, Global};

/// What a subcommand does.
#[derive(Clone, Copy, PartialEq, Eq)]
pub enum Task {
    /// Encodes and decodes records.
    Codec,
    /// Requests and releases locks.
    Locks,
    /// Updates words of regions.
    Update,
    /// Checks regions.
    Check,
    /// Parses a script.
    Parse,
    /// Draws numbers, each once.
    Claims,
    /// Adds entries to a history, and lets notes meet.
    Notes,
    /// Commits transactions to files in a new folder within a folder.
    Commit,
    /// Updates the records of one database in files, so often that its size tells what stays in memory.
    Steady,
    /// Inserts records into a database in memory.
    Growth,
    /// Makes a database in memory, and commits the transactions that a script has in `dali_bench_script`.
    Direct,
    /// Makes calls that insert.
    Insert,
    /// Makes calls that read.
    Get,
    /// Makes calls that update.
    Change,
    /// Makes calls that delete.
    Delete,
    /// Makes calls that insert, ten a transaction.
    Tens,
    /// Does a little of each, in a new folder within a folder.
    Small,
}

const TASKS: [Task; 17] = [
    Task::Codec,
    Task::Locks,
    Task::Update,
    Task::Check,
    Task::Parse,
    Task::Claims,
    Task::Notes,
    Task::Commit,
    Task::Steady,
    Task::Growth,
    Task::Direct,
    Task::Insert,
    Task::Get,
    Task::Change,
    Task::Delete,
    Task::Tens,
    Task::Small,
];

impl Task {
    fn name<'a>(self) -> &'a str {
        match self {
            Task::Codec => "codec",
            Task::Locks => "locks",
            Task::Update => "update",
            Task::Check => "check",
            Task::Parse => "parse",
            Task::Claims => "claims",
            Task::Notes => "notes",
            Task::Commit => "commit",
            Task::Steady => "steady",
            Task::Growth => "growth",
            Task::Direct => "direct",
            Task::Insert => "insert",
            Task::Get => "get",
            Task::Change => "change",
            Task::Delete => "delete",
            Task::Tens => "tens",
            Task::Small => "small",
        }
    }

    fn about<'a>(self) -> &'a str {
        match self {
            Task::Codec => "Encodes and decodes COUNT records of blocks",
            Task::Locks => "Requests COUNT locks, and releases them",
            Task::Update => "Updates a word of some region of 64 MiB, COUNT times",
            Task::Check => "Checks every region of 64 MiB, COUNT times",
            Task::Parse => "Parses a script of 1 MiB, COUNT times",
            Task::Claims => "Draws COUNT numbers, each once",
            Task::Notes => "Adds COUNT entries to a history, and lets another note meet each",
            Task::Commit =>
                "Commits COUNT transactions of one insert to files in a folder within FOLDER",
            Task::Steady =>
                "Commits COUNT transactions of one update on 10,000 records, a hundred a flush, to files in a folder within FOLDER",
            Task::Growth => "Inserts COUNT records in transactions of five, in memory",
            Task::Direct => "Commits COUNT transactions of five inserts, in memory",
            Task::Insert => "Makes COUNT calls that insert, five a transaction",
            Task::Get => "Makes COUNT calls that read, five a transaction",
            Task::Change => "Makes COUNT calls that update, five a transaction",
            Task::Delete => "Makes COUNT calls that delete, five a transaction",
            Task::Tens => "Makes COUNT calls that insert, ten a transaction",
            Task::Small => "Does a little of each, in a folder within FOLDER, and prints ok",
        }
    }

    fn has_count(self) -> bool {
        self != Task::Small
    }

    fn has_folder(self) -> bool {
        matches!(self, Task::Commit | Task::Steady | Task::Small)
    }
}

/// What the command line asks for.
#[derive(Clone, Copy)]
pub struct Job<'a> {
    /// What is done.
    pub task: Task,
    /// How often it is done; 0 where the subcommand has no count.
    pub count: u32,
    /// Where its files are made or found: the current folder where none is named.
    pub folder: &'a str,
}

fn subcommand<'a>(alloc: Global, task: Task) -> Result<Command<'a>, AllocError> {
    let mut command = Command::new(alloc, task.name()).about(task.about());
    if task.has_count() {
        let count = Arg::new(alloc, "count")
            .long("count")
            .required(true)
            .action(ArgAction::Set)
            .value_parser(value_parser!(u32));
        command = command.arg(count)?;
    }
    if task.has_folder() {
        let folder = Arg::new(alloc, "folder")
            .long("folder")
            .action(ArgAction::Set);
        command = command.arg(folder)?;
    }
    Ok(command)
}

/// The command line's form.
pub fn command<'a>(alloc: Global) -> Result<Command<'a>, AllocError> {
    let mut command = Command::new(alloc, "dali_bench")
        .about("Times one thing, and prints its rate")
        .subcommand_required(true);
    for task in TASKS {
        command = command.subcommand(subcommand(alloc, task)?)?;
    }
    Ok(command)
}

/// What the matches ask for. None where no subcommand was given.
pub fn asked<'a>(matches: &ArgMatches<'a>) -> Option<Job<'a>> {
    let (name, matches) = matches.subcommand()?;
    let task = TASKS.iter().copied().find(|task| task.name() == name)?;
    Some(Job {
        task,
        count: matches.get_one::<u32>("count").unwrap_or(0),
        folder: matches.get_str("folder").unwrap_or("."),
    })
}
