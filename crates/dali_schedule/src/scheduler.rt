//! A schedule that is chosen while the program runs.
use crate::baton::Baton;
use crate::free::Free;
use crate::schedule::Schedule;
use std::alloc::{AllocError, Global};
use std::sync::{Condvar, MutexGuard, Wait};

/// Which schedule clients go on by.
#[derive(Clone, Copy, PartialEq, Eq)]
pub enum Scheduling {
    /// Each client goes on as it can.
    Free,
    /// One client at a time, by ascending number.
    Turns,
    /// One client at a time, drawn by numbers that follow from this seed.
    Seeded(u64),
}

/// The schedule that was chosen, of one type whatever it is.
#[derive(Drop)]
pub enum Scheduler {
    /// Each client goes on as it can.
    Free,
    /// One client at a time.
    Baton(Baton),
}

impl Scheduler {
    /// The schedule of this kind, for clients with the numbers up to the last. It takes memory where it has a baton.
    pub fn new(alloc: Global, last: u32, scheduling: Scheduling) -> Result<Scheduler, AllocError> {
        Ok(match scheduling {
            Scheduling::Free => Scheduler::Free,
            Scheduling::Turns => Scheduler::Baton(Baton::turns(alloc, last)?),
            Scheduling::Seeded(seed) => Scheduler::Baton(Baton::seeded(alloc, last, seed)?),
        })
    }
}

impl Schedule for Scheduler {
    fn expect<R: Wait>(&self, rt: &R, client: u32) {
        match self {
            Scheduler::Free => Free.expect(rt, client),
            Scheduler::Baton(baton) => baton.expect(rt, client),
        }
    }

    fn step<R: Wait>(&self, rt: &R, client: u32) {
        match self {
            Scheduler::Free => Free.step(rt, client),
            Scheduler::Baton(baton) => baton.step(rt, client),
        }
    }

    fn pause<T, R: Wait>(&self, rt: &R, client: u32, guard: MutexGuard<'_, T>, news: &Condvar) {
        match self {
            Scheduler::Free => Free.pause(rt, client, guard, news),
            Scheduler::Baton(baton) => baton.pause(rt, client, guard, news),
        }
    }

    fn leave<R: Wait>(&self, rt: &R, client: u32) {
        match self {
            Scheduler::Free => Free.leave(rt, client),
            Scheduler::Baton(baton) => baton.leave(rt, client),
        }
    }
}
