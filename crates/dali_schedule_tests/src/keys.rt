//! Keys that clients hold over several steps, and for which they wait.
ghost use Rattle.std.specs.Prelude.{◌≡◌, None};
ghost use Rattle.std.specs.Sync.Mutex.{mutex_guard_value};

use dali_schedule::{Schedule, Scheduler, Scheduling, Work, in_threads};
use std::alloc::{AllocError, Global};
use std::sync::{Condvar, Mutex, MutexGuard, Wait};
use std::thread::Threads;

/// The clients of a run.
pub const CLIENTS: [u32; 4] = [1, 2, 3, 4];

const TRANSACTIONS: u32 = 5;

const KEYS: u32 = 3;

/// How many steps a run has: seven a transaction.
pub const STEPS: usize = 140;

/// How often keys are changed in a run: three times a transaction.
pub const CHANGES: u64 = 60;

// A key: who holds it, and how often it was changed.
#[derive(Drop)]
struct Held {
    number: u32,
    by: Option<u32>,
    changes: u64,
}

#[derive(Drop)]
struct Key {
    lock: Mutex<Held>,
    freed: Condvar,
}

// Who made each step, and how often a client waited.
#[derive(Drop)]
struct History {
    steps: Vec<u32>,
    waits: u64,
}

/// Clients that take two of three keys each, the lower one first, change them and let them go.
#[derive(Drop)]
struct Transactions<'a> {
    schedule: &'a Scheduler,
    keys: &'a [Key],
    history: &'a Mutex<History>,
}

/// What is left of a run.
#[derive(Drop)]
pub struct Left {
    /// Who made each step.
    pub steps: Vec<u32>,
    /// How often a client waited.
    pub waits: u64,
    /// How often keys were changed.
    pub changes: u64,
    /// For how many clients no thread could be made.
    pub run_here: usize,
}

impl Left {
    /// Whether each client has made all of its steps.
    pub fn is_whole(&self) -> bool {
        self.steps.len() == STEPS && self.changes == CHANGES
    }

    /// Whether another run went the same way. Where a thread was lacking in one, it need not.
    pub fn is_like(&self, other: &Left) -> bool {
        let lacked = self.run_here != 0 || other.run_here != 0;
        lacked || (self.steps == other.steps && self.waits == other.waits)
    }
}

// The key of this number, which nobody holds. Waits while another holds it.
fn free_key<'a, R: Wait>(
    rt: &R,
    work: &Transactions<'_>,
    client: u32,
    key: &'a Key,
    number: u32,
) -> MutexGuard<'a, Held>
    ensures number { (mutex_guard_value result).number ≡ number }
    ensures free { (mutex_guard_value result).by ≡ None }
{
    for _ in rt.forever() {
        let held = key.lock.lock(rt);
        if held.number == number && held.by.is_none() {
            return held;
        }
        work.note_wait(rt);
        work.schedule.pause(rt, client, held, &key.freed);
    }
    unreachable!()
}

impl Transactions<'_> {
    fn note_step<R: Wait>(&self, rt: &R, client: u32) {
        let mut history = self.history.lock(rt);
        let _ = history.steps.push(client);
    }

    fn note_wait<R: Wait>(&self, rt: &R) {
        let mut history = self.history.lock(rt);
        history.waits = history.waits.saturating_add(1);
    }

    fn take<R: Wait>(&self, rt: &R, client: u32, key: &Key, number: u32) {
        self.schedule.step(rt, client);
        let mut held = free_key(rt, self, client, key, number);
        held.by = Some(client);
        self.note_step(rt, client);
    }

    fn change<R: Wait>(&self, rt: &R, client: u32, key: &Key) {
        self.schedule.step(rt, client);
        let mut held = key.lock.lock(rt);
        held.changes = held.changes.saturating_add(1);
        self.note_step(rt, client);
    }

    fn free<R: Wait>(&self, rt: &R, client: u32, key: &Key) {
        self.schedule.step(rt, client);
        let mut held = key.lock.lock(rt);
        held.by = None;
        self.note_step(rt, client);
        key.freed.notify_all();
    }

    fn run_one<R: Wait>(&self, rt: &R, client: u32, low: u32, high: u32) {
        let (Some(first), Some(second)) = (
            self.keys.get(low as usize),
            self.keys.get(high as usize),
        ) else {
            return;
        };
        self.take(rt, client, first, low);
        self.change(rt, client, first);
        self.take(rt, client, second, high);
        self.change(rt, client, second);
        self.change(rt, client, first);
        self.free(rt, client, first);
        self.free(rt, client, second);
    }
}

impl Work for Transactions<'_> {
    fn run<R: Wait>(&self, rt: &R, client: u32) {
        for transaction in 0..TRANSACTIONS {
            match (client % 3 + transaction % 3) % 3 {
                0 => self.run_one(rt, client, 1, 2),
                1 => self.run_one(rt, client, 0, 2),
                _ => self.run_one(rt, client, 0, 1),
            }
        }
    }
}

/// A run of all clients.
pub fn run<R: Threads + Wait + Sync>(
    rt: &R,
    alloc: Global,
    scheduling: Scheduling,
) -> Result<Left, AllocError> {
    let schedule = Scheduler::new(alloc, 4, scheduling)?;
    let mut keys = Vec::new(alloc);
    for number in 0..KEYS {
        keys.push(Key {
            lock: Mutex::new(Held {
                number,
                by: None,
                changes: 0,
            }),
            freed: Condvar::new(),
        })?;
    }
    let history = Mutex::new(History {
        steps: Vec::with_capacity(alloc, STEPS)?,
        waits: 0,
    });
    let work = Transactions {
        schedule: &schedule,
        keys: keys.as_slice(),
        history: &history,
    };
    let run_here = in_threads(rt, &schedule, &CLIENTS, &work);
    let History { steps, waits } = history.into_inner();
    let mut changes = 0u64;
    for key in keys {
        let Key { lock, freed: _ } = key;
        changes = changes.saturating_add(lock.into_inner().changes);
    }
    Ok(Left {
        steps,
        waits,
        changes,
        run_here,
    })
}
