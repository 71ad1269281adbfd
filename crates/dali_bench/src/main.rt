//! The program `dali_bench`: it times one thing, and prints its rate.
#![tactic(auto)]

mod arguments;
mod calls;
mod codec;
mod databases;
mod keys;
mod locks;
mod regions;
mod scripts;
mod shared;
mod timing;

use anyhow::{Context, Result, bail};
use arguments::{Job, Task};
use calls::Kind;
use dali_filestore::FileStore;
use std::io::ErrorKind;
use std::process::ExitCode;
use std::{env, fs};
use timing::Timing;

/// How many names of folders are tried.
const FOLDERS: u32 = 1000;

// Makes a folder within this one, with the first name that is free.
fn make_folder(rt: &HostRuntime, folder: &str) -> Result<String> {
    for number in 0..FOLDERS {
        let path = format!(in rt.alloc(); "{folder}/dali_bench.{number}")?;
        match fs::create_dir(rt, path.as_str()) {
            Ok(()) => return Ok(path),
            Err(error) if error.kind() == ErrorKind::AlreadyExists => {}
            Err(error) => return Err(error.into()),
        }
    }
    bail!("too many folders were left by runs that were cut off")
}

// Removes the folder, and gives what was timed in it.
fn remove(rt: &HostRuntime, folder: &str, timing: Result<Timing>) -> Result<Timing> {
    let removed = fs::remove_dir_all(rt, folder);
    let timing = timing?;
    removed?;
    Ok(timing)
}

fn time_commits(rt: &HostRuntime, count: u32, within: &str) -> Result<Timing> {
    let folder = make_folder(rt, within)?;
    let store = FileStore::in_folder(rt, folder.as_str());
    let timing = databases::commit(rt, rt.alloc(), store, count);
    remove(rt, folder.as_str(), timing)
}

fn time_updates(rt: &HostRuntime, count: u32, within: &str) -> Result<Timing> {
    let folder = make_folder(rt, within)?;
    let store = FileStore::in_folder(rt, folder.as_str());
    let timing = databases::update_steadily(rt, rt.alloc(), store, count);
    remove(rt, folder.as_str(), timing)
}

// Does a little of each that has no files.
fn run_small(rt: &HostRuntime) -> Result<()> {
    let alloc = rt.alloc();
    codec::run(rt, alloc, 1000)?;
    locks::run(rt, alloc, 10_000)?;
    regions::update(rt, alloc, 1000, 16)?;
    regions::check(rt, alloc, 2, 16)?;
    scripts::run(rt, alloc, 1, 4096)?;
    shared::draw(rt, alloc, 1000)?;
    shared::note(rt, alloc, 1000)?;
    databases::grow(rt, alloc, 100)?;
    databases::commit_in_memory(rt, alloc, 10)?;
    calls::run(rt, alloc, Kind::Delete, 100)?;
    Ok(())
}

// Does a little of what has files, within a folder.
fn time_few(rt: &HostRuntime, within: &str) -> Result<Timing> {
    time_commits(rt, 3, within)?;
    time_updates(rt, 100, within)
}

// Does a little of each.
fn run_all(rt: &HostRuntime, within: &str) -> Result<()> {
    run_small(rt)?;
    let folder = make_folder(rt, within)?;
    let timing = time_few(rt, folder.as_str());
    remove(rt, folder.as_str(), timing)?;
    Ok(())
}

fn run_job(rt: &HostRuntime, job: &Job) -> Result<()> {
    let alloc = rt.alloc();
    let count = job.count;
    let timing = match job.task {
        Task::Codec => codec::run(rt, alloc, count)?,
        Task::Locks => locks::run(rt, alloc, count)?,
        Task::Update => regions::update(rt, alloc, count, regions::REGIONS)?,
        Task::Check => regions::check(rt, alloc, count, regions::REGIONS)?,
        Task::Parse => scripts::run(rt, alloc, count, scripts::LIMIT)?,
        Task::Claims => shared::draw(rt, alloc, count)?,
        Task::Notes => shared::note(rt, alloc, count)?,
        Task::Growth => databases::grow(rt, alloc, count)?,
        Task::Direct => databases::commit_in_memory(rt, alloc, count)?,
        Task::Insert => calls::run(rt, alloc, Kind::Insert, count)?,
        Task::Get => calls::run(rt, alloc, Kind::Get, count)?,
        Task::Change => calls::run(rt, alloc, Kind::Update, count)?,
        Task::Delete => calls::run(rt, alloc, Kind::Delete, count)?,
        Task::Tens => calls::run_tens(rt, alloc, count)?,
        Task::Commit => time_commits(rt, count, job.folder)?,
        Task::Steady => time_updates(rt, count, job.folder)?,
        Task::Small => {
            run_all(rt, job.folder)?;
            println!(rt; "ok")?;
            return Ok(());
        }
    };
    println!(rt; "{timing}")?;
    Ok(())
}

fn main(rt: HostRuntime) -> Result<ExitCode> {
    let alloc = rt.alloc();
    let words: Vec<String> = env::args(&rt)?.collect(alloc)?;
    let command = arguments::command(alloc)?;
    let matches = match command.try_get_matches_from(words.as_slice()) {
        Ok(matches) => matches,
        Err(error) => {
            error.print(&rt)?;
            return Ok(ExitCode::from(error.exit_code() as u8));
        }
    };
    let job = arguments::asked(&matches).context("no subcommand")?;
    run_job(&rt, &job)?;
    Ok(ExitCode::SUCCESS)
}
