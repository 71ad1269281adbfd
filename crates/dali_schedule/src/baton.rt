//! One client at a time.
use crate::order::Order;
use crate::schedule::Schedule;
use crate::seats::Seats;
use rand_core::SeedableRng;
use rand_pcg::Pcg32;
use std::alloc::{AllocError, Global};
use std::sync::{Condvar, Mutex, MutexGuard, Wait};

/// A client runs while it has the baton, and gives it on at its next step or pause, to one that is expected. So a run depends on the order
/// alone, where all clients are expected before the first one runs, and read nothing that they share but in their turns.
///
/// A client that comes to a step without being expected is expected from then on. One without a seat goes on as it can.
#[derive(Drop)]
pub struct Baton {
    seats: Mutex<Seats>,
    news: Vec<Condvar>,
}

impl Baton {
    /// The baton goes round by ascending number, over seats for the numbers from 0 to the last. It takes memory for them.
    pub fn turns(alloc: Global, last: u32) -> Result<Baton, AllocError> {
        Baton::new(alloc, last, Order::Turns)
    }

    /// Who is next is drawn by numbers that follow from the seed: the same one where the same are expected. It may be the one that gives it on.
    pub fn seeded(alloc: Global, last: u32, seed: u64) -> Result<Baton, AllocError> {
        Baton::new(alloc, last, Order::Seeded(Pcg32::seed_from_u64(seed)))
    }

    fn new(alloc: Global, last: u32, order: Order) -> Result<Baton, AllocError> {
        let mut news = Vec::new(alloc);
        for _ in 0..=last {
            news.push(Condvar::new())?;
        }
        Ok(Baton {
            seats: Mutex::new(Seats::new(alloc, last, order)?),
            news,
        })
    }

    // Wakes who has the baton.
    fn tell(&self, holder: Option<u32>) {
        if let Some(client) = holder {
            if let Some(news) = self.news.get(client as usize) {
                news.notify_all();
            }
        }
    }

    // Gives the baton on, if the client has it, and returns when it is back.
    fn take_turn<R: Wait>(&self, rt: &R, client: u32) {
        let Some(news) = self.news.get(client as usize) else {
            return;
        };
        let mut seats = self.seats.lock(rt);
        seats.expect(client);
        seats.end_turn(client);
        if seats.begin_turn(client) {
            return;
        }
        self.tell(seats.holder());
        for _ in rt.forever() {
            if seats.begin_turn(client) {
                return;
            }
            seats = news.wait(rt, seats);
        }
    }
}

impl Schedule for Baton {
    fn expect<R: Wait>(&self, rt: &R, client: u32) {
        self.seats.lock(rt).expect(client);
    }

    fn step<R: Wait>(&self, rt: &R, client: u32) {
        self.take_turn(rt, client);
    }

    fn pause<T, R: Wait>(&self, rt: &R, client: u32, guard: MutexGuard<'_, T>, _news: &Condvar) {
        drop(guard);
        self.take_turn(rt, client);
    }

    fn leave<R: Wait>(&self, rt: &R, client: u32) {
        let mut seats = self.seats.lock(rt);
        seats.leave(client);
        self.tell(seats.holder());
    }
}
