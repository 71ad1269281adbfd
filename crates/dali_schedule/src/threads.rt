//! Clients in threads, under a schedule.
ghost use Rattle.std.specs.Prelude.{◌≤◌, length};

use crate::schedule::Schedule;
use std::sync::Wait;
use std::thread;
use std::thread::Threads;

/// What clients do.
pub trait Work {
    /// All that the client does, with a step of the schedule before each of its steps.
    fn run<R: Wait>(&self, rt: &R, client: u32);
}

// All that a client does, and then it leaves.
fn run_one<S: Schedule, W: Work, R: Wait>(rt: &R, schedule: &S, work: &W, client: u32) {
    work.run(rt, client);
    schedule.leave(rt, client);
}

// The caller, and the clients from this place on, don't come.
fn leave_all<S: Schedule, R: Wait>(rt: &R, schedule: &S, clients: &[u32]) {
    for client in clients {
        schedule.leave(rt, *client);
    }
    schedule.leave(rt, 0);
}

/// Calls `work.run` for each of these clients, in a thread of its own where one can be made, and returns when all have returned.
///
/// The clients' numbers differ, and none is 0: that is the caller, which has the baton of a new schedule until all are expected and
/// started. A client for which no thread can be made is run by the caller, beside those that are started, and those after it in the list
/// come when they come. The result is how many clients the caller ran: only where it is 0 can a baton's run be made again. It takes no
/// memory but what the system takes for threads.
pub fn in_threads<S: Schedule + Sync, W: Work + Sync, R: Threads + Wait + Sync>(
    rt: &R,
    schedule: &S,
    clients: &[u32],
    work: &W,
) -> usize
    ensures { result ≤ length clients.now }
{
    schedule.expect(rt, 0);
    for client in clients {
        schedule.expect(rt, *client);
    }
    thread::scope(
        thread::scope_env(),
        rt,
        move |scope| -> usize
            ensures { result ≤ length clients.entry.now }
        {
            let mut run_here = 0usize;
            for place in 0..clients.len() {
                let client = clients[place];
                if scope
                    .spawn(move || run_one(rt, schedule, work, client))
                    .is_err()
                {
                    leave_all(rt, schedule, &clients[place..]);
                    run_one(rt, schedule, work, client);
                    run_here += 1;
                }
            }
            schedule.leave(rt, 0);
            run_here
        },
    )
}
