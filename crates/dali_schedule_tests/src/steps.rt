//! Clients that only make steps.
use dali_schedule::{Schedule, Work, in_threads};
use std::alloc::{AllocError, Global};
use std::sync::{Condvar, Mutex, Wait};
use std::thread::Threads;

// Each client makes three steps. One of them leaves behind its first.
#[derive(Drop)]
struct Steps<'a, S> {
    schedule: &'a S,
    early: u32,
    made: &'a Mutex<Vec<u32>>,
}

impl<S: Schedule> Work for Steps<'_, S> {
    fn run<R: Wait>(&self, rt: &R, client: u32) {
        for step in 0..3u32 {
            if client == self.early && step == 1 {
                self.schedule.leave(rt, client);
                return;
            }
            self.schedule.step(rt, client);
            let _ = self.made.lock(rt).push(client);
        }
    }
}

/// Who made each step, where this client leaves early. `None` where a thread was lacking.
pub fn run<S: Schedule + Sync, R: Threads + Wait + Sync>(
    rt: &R,
    alloc: Global,
    schedule: &S,
    clients: &[u32],
    early: u32,
) -> Result<Option<Vec<u32>>, AllocError> {
    let made = Mutex::new(Vec::with_capacity(alloc, clients.len().saturating_mul(3))?);
    let work = Steps {
        schedule,
        early,
        made: &made,
    };
    let run_here = in_threads(rt, schedule, clients, &work);
    let made = made.into_inner();
    Ok(if run_here == 0 { Some(made) } else { None })
}

// Each client waits until all have come.
#[derive(Drop)]
struct Meeting<'a, S> {
    schedule: &'a S,
    count: u32,
    come: &'a Mutex<u32>,
    news: &'a Condvar,
}

impl<S: Schedule> Work for Meeting<'_, S> {
    fn run<R: Wait>(&self, rt: &R, client: u32) {
        self.schedule.step(rt, client);
        {
            let mut come = self.come.lock(rt);
            *come = come.saturating_add(1);
        }
        self.news.notify_all();
        for _ in rt.forever() {
            let come = self.come.lock(rt);
            if *come >= self.count {
                return;
            }
            self.schedule.pause(rt, client, come, self.news);
        }
    }
}

/// How many clients have come to a meeting that ends once all are there.
pub fn meet<S: Schedule + Sync, R: Threads + Wait + Sync>(
    rt: &R,
    schedule: &S,
    clients: &[u32],
) -> u32 {
    let come = Mutex::new(0u32);
    let news = Condvar::new();
    let work = Meeting {
        schedule,
        count: u32::try_from(clients.len()).unwrap_or(u32::MAX),
        come: &come,
        news: &news,
    };
    in_threads(rt, schedule, clients, &work);
    come.into_inner()
}
