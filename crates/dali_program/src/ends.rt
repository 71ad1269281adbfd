//! What is told on standard error beside a run: that its input is typed, and behind it why it ended as it did.
ghost use Rattle.std.specs.Prelude.{◌≡◌, None, Some, IfOk, IfSome, IsErr, IsNone, map, string_bytes};
ghost use Rattle.dali_arguments.specs.Meaning.{meaning};
ghost use Rattle.dali_arguments.specs.Questions.{question_in};
ghost use Rattle.dali_program.specs.Tasks.{reads_input, only_reads};

use dali_arguments::{HINT, Question, Task, asks_for, read};
use dali_console::{Progress, StreamFailure};
use dali_run::{SCRIPT_LIMIT, SOURCE_LIMIT};
use dali_script::{ScriptError, explain, parse};
use std::alloc::{AllocError, Global};
use std::io::{IsTerminal, Print};

// The numbers of the statuses behind which something is told.
const BAD_WORDS: u8 = 1;

const BAD_SCRIPT: u8 = 2;

const TOO_LONG: u8 = 3;

const UNFORMATTED: u8 = 8;

const FORMATTED: u8 = 9;

const LOG_FULL: u8 = 11;

const TOO_SMALL: u8 = 14;

const NOT_LOADED: u8 = 15;

/// What is told before standard input is read that is typed.
pub const TYPED: &str =
    "dali: type the lines; Ctrl-D at the start of one ends them, and nothing is done before\n";

// What is told of a faulty line of rows.
const ROWS: &str =
    "dali: `load` takes what `show` prints: lines `KEY VALUE`, with ascending keys, and `records COUNT` at most behind them\n";

/// The task that the words mean. None where they mean none, and where there is no memory.
pub fn task_of(alloc: Global, words: &Result<Vec<String>, AllocError>) -> Option<Task>
    ensures means { IfOk words.now (λ ws. IfSome result (λ task. meaning (map string_bytes ws.items) ≡ Some task)) }
    ensures wanting { IsErr words.now → IsNone result }
{
    match words {
        Ok(words) => match read(alloc, words) {
            Ok(task) => Some(task),
            Err(_) => None,
        },
        Err(_) => None,
    }
}

/// What the words ask of the program itself.
pub fn question_of(words: &Result<Vec<String>, AllocError>) -> Option<Question>
    ensures asks { IfOk words.now (λ ws. result ≡ question_in (map string_bytes ws.items)) }
    ensures wanting { IsErr words.now → IsNone result }
{
    match words {
        Ok(words) => asks_for(words),
        Err(_) => None,
    }
}

/// Whether standard input is read for this task.
pub fn reads_input(task: Option<Task>) -> bool
    ensures { result ≡ reads_input task }
{
    match task {
        Some(Task::Run { .. } | Task::Load { .. }) => true,
        _ => false,
    }
}

/// Whether the files are only read for this task.
pub fn only_reads(task: Option<Task>) -> bool
    ensures { result ≡ only_reads task }
{
    match task {
        Some(task) => task.only_reads(),
        None => false,
    }
}

// Tells why this script is refused, where there is memory to find out.
fn tell_reason<E: Print + IsTerminal + Drop>(progress: &Progress<E>, alloc: Global, script: &[u8]) {
    if let Err(ScriptError::BadLine { line, kind }) = parse(alloc, script) {
        if let Some(reason) = explain(script, line, kind) {
            progress.tell(format_args!("dali: {reason}\n"));
        }
    }
}

/// Tells why a stream failed, where it did.
pub fn tell_stream<E: Print + IsTerminal + Drop>(
    progress: &Progress<E>,
    name: &str,
    failure: Option<StreamFailure>,
) {
    if let Some(failure) = failure {
        progress.tell(format_args!("dali: standard {name}: {failure}\n"));
    }
}

// Tells what is wrong with what was read for this task.
fn tell_lines<E: Print + IsTerminal + Drop>(
    progress: &Progress<E>,
    alloc: Global,
    task: Option<Task>,
    read: Option<&[u8]>,
) {
    match (task, read) {
        (Some(Task::Run { .. }), Some(script)) => tell_reason(progress, alloc, script),
        (Some(Task::Load { .. }), _) => progress.tell(ROWS),
        _ => {}
    }
}

// Tells how long what is read for this task may be.
fn tell_limit<E: Print + IsTerminal + Drop>(progress: &Progress<E>, task: Option<Task>) {
    let limit = match task {
        Some(Task::Load { .. }) => SOURCE_LIMIT,
        _ => SCRIPT_LIMIT,
    };
    progress.tell(format_args!("dali: standard input may have at most {limit} bytes\n"));
}

// Tells that there is a database where this task makes one.
fn tell_formatted<E: Print + IsTerminal + Drop>(progress: &Progress<E>, task: Option<Task>) {
    progress.tell(match task {
        Some(Task::Load { .. }) => {
            "dali: there is a database in this folder; `load` makes one where its four files aren't\n"
        }
        _ =>
            "dali: there is a database in this folder; a script that begins with `open` opens it\n",
    });
}

// Tells that the database which this task made, if it made one, is to be removed: it may have a part of the records alone.
fn tell_part<E: Print + IsTerminal + Drop>(progress: &Progress<E>, task: Option<Task>) {
    if let Some(Task::Load { .. }) = task {
        progress.tell(
            "dali: this folder may have a part of the records now: if it had no database before, remove its four files\n",
        );
    }
}

/// Tells more of a run for this task that ended with this number, and had read these bytes first.
pub fn tell_end<E: Print + IsTerminal + Drop>(
    progress: &Progress<E>,
    alloc: Global,
    number: u8,
    task: Option<Task>,
    question: Option<Question>,
    read: Option<&[u8]>,
) {
    match (number, question) {
        (BAD_WORDS, Some(question)) => progress.tell(question.answer()),
        (BAD_WORDS, None) => progress.tell(HINT),
        (BAD_SCRIPT, _) => tell_lines(progress, alloc, task, read),
        (TOO_LONG, _) => tell_limit(progress, task),
        (UNFORMATTED, _) => progress.tell(
            "dali: there is no log of a database in this folder; a script that begins with `size` makes one\n",
        ),
        (FORMATTED, _) => tell_formatted(progress, task),
        (LOG_FULL | TOO_SMALL | NOT_LOADED, _) => tell_part(progress, task),
        _ => {}
    }
}
