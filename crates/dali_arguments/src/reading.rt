//! What words ask for.
ghost use Rattle.std.specs.Prelude.{◌≡◌, None, Some, IfErr, IfOk, map, option_map, string_bytes};
ghost use Rattle.clap.specs.Words.{found_of, rows_of, subcommand_rows_of};
ghost use Rattle.dali_arguments.specs.Meaning.{amount_in, flag_in, generation, limit_in, loading, meaning, number_between, run_of, task_of};
ghost use Rattle.dali_arguments.specs.declared.error.ArgumentError.TheVariants.{Faulty};

use crate::form::command;
use crate::{ArgumentError, Task};
use clap::ArgMatches;
use dali_script::number;
use std::alloc::Global;

/// What is printed where the words are faulty, without the end of its line.
pub const USAGE: &str =
    "usage: dali run [--precheck] [--log-limit N] | gen CLIENTS SIZE NUMBER | dump";

const DEFAULT_LIMIT: u64 = 67_108_864;

const LEAST_LIMIT: u64 = 4_096;

const MOST_LIMIT: u64 = 268_435_456;

const MOST_CLIENTS: u32 = 64;

const MOST_SIZE: u32 = 1_000;

const MOST_INDEX: u32 = 32_768;

const MOST_HEAP: u32 = 65_536;

fn between(text: &str, least: u64, most: u64) -> Option<u64>
    ensures { result ≡ number_between least most text.now }
{
    let number = number(text.as_bytes())?;
    if number < least || number > most {
        return None;
    }
    Some(number)
}

fn limit<'a>(matches: &ArgMatches<'a>) -> Option<u64>
    ensures { result ≡ limit_in (rows_of (found_of matches.now)) }
{
    match matches.get_str("log-limit") {
        Some(text) => between(text, LEAST_LIMIT, MOST_LIMIT),
        None => Some(DEFAULT_LIMIT),
    }
}

// The flag's value is the text `true` where it is given, and `false` where it isn't.
fn precheck<'a>(matches: &ArgMatches<'a>) -> bool
    ensures { result ≡ flag_in (rows_of (found_of matches.now)) }
{
    match matches.get_str("precheck") {
        Some(value) => value == "true",
        None => false,
    }
}

fn run<'a>(matches: &ArgMatches<'a>) -> Option<Task>
    ensures { result ≡ run_of (rows_of (found_of matches.now)) }
{
    Some(Task::Run {
        precheck: precheck(matches),
        limit: limit(matches)?,
    })
}

fn amount<'a>(matches: &ArgMatches<'a>, name: &str, most: u32) -> Option<u32>
    ensures { result ≡ amount_in name.now most (rows_of (found_of matches.now)) }
{
    let amount = between(matches.get_str(name)?, 1, most as u64)?;
    Some(amount as u32)
}

fn generate<'a>(matches: &ArgMatches<'a>) -> Option<Task>
    ensures { result ≡ generation (rows_of (found_of matches.now)) }
{
    Some(Task::Generate {
        clients: amount(matches, "clients", MOST_CLIENTS)?,
        size: amount(matches, "size", MOST_SIZE)?,
        number: number(matches.get_str("number")?.as_bytes())?,
    })
}

fn load<'a>(matches: &ArgMatches<'a>) -> Option<Task>
    ensures { result ≡ loading (rows_of (found_of matches.now)) }
{
    Some(Task::Load {
        index: amount(matches, "index", MOST_INDEX)?,
        heap: amount(matches, "heap", MOST_HEAP)?,
    })
}

// None where no subcommand was given.
fn task<'a>(matches: &ArgMatches<'a>) -> Option<Task>
    ensures { result ≡ task_of (subcommand_rows_of matches.now) }
{
    let (name, matches) = matches.subcommand()?;
    match name {
        "run" => run(matches),
        "gen" => generate(matches),
        "dump" => Some(Task::Dump),
        "show" => Some(Task::Show),
        "status" => Some(Task::Status),
        "load" => load(matches),
        _ => None,
    }
}

/// The task that the words mean, which stand behind the program's name. Faulty where they mean none. Takes memory;
/// OutOfMemory where it was wanted and refused.
pub fn read(alloc: Global, words: &[String]) -> Result<Task, ArgumentError>
    ensures means { IfOk result (λ task. meaning (map string_bytes words.now) ≡ Some task) }
    ensures faulty { IfErr result (λ error. error ≡ Faulty → meaning (map string_bytes words.now) ≡ None) }
{
    let matches = command(alloc)?.try_get_matches_from(words)?;
    task(&matches).ok_or(ArgumentError::Faulty)
}
