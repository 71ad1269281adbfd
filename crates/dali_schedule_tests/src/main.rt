//! Tests of `dali_schedule` in threads that run at once: what no clause says of it.
#![tactic(auto)]

mod edges;
mod keys;
mod steps;

use anyhow::Result;
use dali_schedule::{Scheduler, Scheduling};
use keys::{CLIENTS, run};
use std::alloc::{AllocError, Global};
use std::process::ExitCode;
use std::sync::{Arc, Condvar, Mutex, Wait};
use std::thread::Threads;
use std::time::Duration;
use std::{env, thread};

// All runs last some seconds. One that hangs is told after so many.
const SECONDS: u64 = 60;

const RUNS: u32 = 100;

/// What the runs have shown, a line each.
#[derive(Drop)]
pub struct Lines {
    text: String,
    alloc: Global,
}

impl Lines {
    /// Adds a line: what was tried, and what came of it.
    pub fn add(&mut self, tried: &str, found: &str) -> Result<(), AllocError> {
        let line = format!(in self.alloc; "{tried}: {found}\n")?;
        self.text.push_str(line.as_str())
    }

    /// Adds a line: who made each step, or that a thread was lacking.
    pub fn add_steps(&mut self, tried: &str, steps: Option<Vec<u32>>) -> Result<(), AllocError> {
        let Some(steps) = steps else {
            return self.add(tried, "a thread was lacking");
        };
        let mut text = String::new(self.alloc);
        for client in steps.as_slice() {
            text.push_str(format!(in self.alloc; " {client}")?.as_str())?;
        }
        self.add(tried, text.as_str().trim_start())
    }

    /// Adds a line: whether it was so.
    pub fn add_test(&mut self, tried: &str, is_so: bool) -> Result<(), AllocError> {
        self.add(tried, if is_so { "yes" } else { "NO" })
    }
}

// All clients wait for one another.
fn try_meetings<R: Threads + Wait + Sync>(
    rt: &R,
    alloc: Global,
    lines: &mut Lines,
) -> Result<(), AllocError> {
    let mut met = 0u32;
    for scheduling in [Scheduling::Free, Scheduling::Turns, Scheduling::Seeded(1)] {
        let schedule = Scheduler::new(alloc, 4, scheduling)?;
        met = met.saturating_add(steps::meet(rt, &schedule, &CLIENTS));
    }
    lines.add_test("clients run at once, wake each other and end", met == 12)
}

// The order in which clients make their steps.
fn try_orders<R: Threads + Wait + Sync>(
    rt: &R,
    alloc: Global,
    lines: &mut Lines,
) -> Result<(), AllocError> {
    for (tried, scheduling, early) in [
        ("turns", Scheduling::Turns, 0u32),
        ("turns, and 2 leaves early", Scheduling::Turns, 2),
        ("seed 7", Scheduling::Seeded(7), 0),
        ("seed 8", Scheduling::Seeded(8), 0),
        ("seed 7, and 2 leaves early", Scheduling::Seeded(7), 2),
    ] {
        let schedule = Scheduler::new(alloc, 4, scheduling)?;
        lines.add_steps(tried, steps::run(rt, alloc, &schedule, &CLIENTS, early)?)?;
    }
    Ok(())
}

// Runs over keys for which clients wait. Runs in which a thread was lacking only have to end. The result is for how many clients no thread could be made.
fn try_keys<R: Threads + Wait + Sync>(
    rt: &R,
    alloc: Global,
    lines: &mut Lines,
) -> Result<usize, AllocError> {
    let mut run_here = 0usize;
    let (mut are_whole, mut are_alike) = (true, true);
    for _ in 0..RUNS {
        let left = run(rt, alloc, Scheduling::Free)?;
        run_here = run_here.saturating_add(left.run_here);
        are_whole = are_whole && left.is_whole();
    }
    lines.add_test("free: each of 100 runs ends with all steps", are_whole)?;
    let first = run(rt, alloc, Scheduling::Turns)?;
    run_here = run_here.saturating_add(first.run_here);
    are_whole = first.is_whole();
    for _ in 0..RUNS {
        let left = run(rt, alloc, Scheduling::Turns)?;
        run_here = run_here.saturating_add(left.run_here);
        are_whole = are_whole && left.is_whole();
        are_alike = are_alike && left.is_like(&first);
    }
    lines.add_test("turns: each of 100 runs ends with all steps", are_whole)?;
    lines.add_test("turns: all of them are alike", are_alike)?;
    let lacked = run_here > 0;
    lines.add_test("turns: clients wait for keys", lacked || first.waits > 0)?;
    let mut differ = false;
    for seed in 0..u64::from(RUNS) {
        let one = run(rt, alloc, Scheduling::Seeded(seed))?;
        let other = run(rt, alloc, Scheduling::Seeded(seed))?;
        run_here = run_here
            .saturating_add(one.run_here)
            .saturating_add(other.run_here);
        are_whole = are_whole && one.is_whole() && other.is_whole();
        are_alike = are_alike && one.is_like(&other);
        differ = differ || one.steps != first.steps;
    }
    lines.add_test("seeds: each of 200 runs ends with all steps", are_whole)?;
    lines.add_test(
        "seeds: each of 100 seeds gives the same run twice",
        are_alike,
    )?;
    let lacked = run_here > 0;
    lines.add_test("seeds: not all give the run by turns", lacked || differ)?;
    Ok(run_here)
}

// All that is tried. Where threads may be lacking, only what then ends all the same.
fn try_all<R: Threads + Wait + Sync>(
    rt: &R,
    alloc: Global,
    has_threads: bool,
) -> Result<String, AllocError> {
    let mut lines = Lines {
        text: String::new(alloc),
        alloc,
    };
    if has_threads {
        try_meetings(rt, alloc, &mut lines)?;
        try_orders(rt, alloc, &mut lines)?;
        edges::try_all(rt, alloc, &mut lines)?;
    }
    let run_here = try_keys(rt, alloc, &mut lines)?;
    if !has_threads {
        lines.add_test(
            "the caller ran clients for which no thread could be made",
            run_here > 0,
        )?;
    }
    Ok(lines.text)
}

// Whether the runs have ended.
#[derive(Drop)]
struct End {
    has_come: Mutex<bool>,
    news: Condvar,
}

fn main(rt: HostRuntime) -> Result<ExitCode> {
    let alloc = rt.alloc();
    let words: Vec<String> = env::args(&rt)?.collect(alloc)?;
    let has_threads = words.len() < 2;
    let end = Arc::new(
        alloc,
        End {
            has_come: Mutex::new(false),
            news: Condvar::new(),
        },
    )?;
    let theirs = Arc::try_clone(&end)?;
    let tries = move || {
        let text = try_all(&rt, alloc, has_threads);
        *theirs.has_come.lock(&rt) = true;
        theirs.news.notify_all();
        text
    };
    let text = match thread::spawn(&rt, tries) {
        Ok(child) => {
            let has_come = end.has_come.lock(&rt);
            let (has_come, _) = end
                .news
                .wait_timeout_while(&rt, has_come, Duration::from_secs(SECONDS), |come| !*come);
            if !*has_come {
                println!(rt; "some run hangs")?;
                return Ok(ExitCode::FAILURE);
            }
            drop(has_come);
            child.join(&rt)?
        }
        Err(refused) => (refused.value)()?,
    };
    print!(rt; "{text}")?;
    Ok(ExitCode::SUCCESS)
}
