//! What a client tells its schedule.
use std::sync::{Condvar, MutexGuard, Wait};

/// When clients in threads of their own go on.
///
/// A client that shares locks with others calls it before each step and in place of each wait, and holds no lock then but the one that it
/// hands to `pause`. Clients have numbers from 1 on, and 0 is who starts them. No contract speaks of order, nor of who gets on: a
/// schedule decides when a call returns and nothing else. No call takes memory.
pub trait Schedule {
    /// The client will come: until it leaves, the others wait for it where it is its turn.
    fn expect<R: Wait>(&self, rt: &R, client: u32);

    /// Before each step of the client, and so before it takes a lock: returns when it is its turn.
    fn step<R: Wait>(&self, rt: &R, client: u32);

    /// In place of `Condvar::wait`, where the value under the lock keeps the client from going on. It lets the lock go, and returns
    /// when there may be news, or for none: the client then takes the lock and tests again. Who changes the value so that another may
    /// go on calls `notify_all` on the same `news`, whatever the schedule.
    fn pause<T, R: Wait>(&self, rt: &R, client: u32, guard: MutexGuard<'_, T>, news: &Condvar);

    /// The client is done, or it is dead. The others don't wait for it any more.
    fn leave<R: Wait>(&self, rt: &R, client: u32);
}
