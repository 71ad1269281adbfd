//! The machine picks.
use crate::schedule::Schedule;
use std::sync::{Condvar, MutexGuard, Wait};

/// Each client goes on as it can. A client that waits sleeps.
#[derive(Clone, Copy, Drop)]
pub struct Free;

impl Schedule for Free {
    fn expect<R: Wait>(&self, _rt: &R, _client: u32) {}

    fn step<R: Wait>(&self, _rt: &R, _client: u32) {}

    fn pause<T, R: Wait>(&self, rt: &R, _client: u32, guard: MutexGuard<'_, T>, news: &Condvar) {
        drop(news.wait(rt, guard));
    }

    fn leave<R: Wait>(&self, _rt: &R, _client: u32) {}
}
