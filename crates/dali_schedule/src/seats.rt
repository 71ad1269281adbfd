//! The seats of the clients, and whose turn it is.
ghost use Rattle.std.specs.Prelude.{◌≡◌, ◌+◌, false, None, IfOk, replicate, slice_set};
ghost use Rattle.dali_schedule.specs.Seats.{is_holder, expects, leaves, ends_turn, begins_turn};

use crate::order::Order;
use std::alloc::{AllocError, Global};
use std::marker::Model;

/// Who is expected, who has the baton, and whether its turn has begun.
#[derive(Drop)]
pub(crate) struct Seats {
    expected: Vec<bool>,
    holder: Option<u32>,
    at_work: bool,
    order: Order,
}

impl Model for Seats {
    ghost use Rattle.dali_schedule.specs.Seats.{Table, IsKept};

    ghost Value = { Table };

    ghost view = { λ s. record { expected = s.expected.items; holder = s.holder; at_work = s.at_work; order = s.order } };

    ghost invariant = { λ s. IsKept (record { expected = s.expected.items; holder = s.holder; at_work = s.at_work; order = s.order }) };
}

impl Seats {
    /// Seats with the numbers from 0 to the last, of whom nobody is expected.
    pub(crate) fn new(alloc: Global, last: u32, order: Order) -> Result<Seats, AllocError>
        ensures { IfOk result (λ seats. seats ≡ record { expected = replicate (last + 1) false; holder = None; at_work = false; order = order }) }
    {
        let mut expected = Vec::new(alloc);
        expected.resize(last as usize + 1, false)?;
        Ok(Seats {
            expected,
            holder: None,
            at_work: false,
            order,
        })
    }

    /// Who has the baton.
    pub(crate) fn holder(&self) -> Option<u32>
        ensures { result ≡ self.now.holder }
    {
        self.holder
    }

    fn is_holder(&self, client: u32) -> bool
        ensures { result ≡ is_holder client self.now }
    {
        match self.holder {
            Some(holder) => holder == client,
            None => false,
        }
    }

    /// Expects the client, which gets the baton if nobody has it. A client without a seat changes nothing.
    pub(crate) fn expect(&mut self, client: u32)
        ensures { self.new ≡ expects client self.old }
    {
        let place = client as usize;
        if place < self.expected.len() {
            self.expected[place] = true;
            if self.holder.is_none() {
                self.holder = Some(client);
            }
        }
    }

    /// Expects the client no more. If it has the baton, the next one gets it.
    pub(crate) fn leave(&mut self, client: u32)
        ensures { self.new ≡ leaves client self.old }
    {
        let is_holder = self.is_holder(client);
        set_seat(&mut self.expected, client, false);
        if is_holder {
            self.holder = self.order.next(self.expected.as_slice(), client);
            self.at_work = false;
        }
    }

    /// The client's turn ends, if it has begun: the next one gets the baton.
    pub(crate) fn end_turn(&mut self, client: u32)
        ensures { self.new ≡ ends_turn client self.old }
    {
        if self.is_holder(client) && self.at_work {
            self.holder = self.order.next(self.expected.as_slice(), client);
            self.at_work = false;
        }
    }

    /// Whether it is the client's turn, which then begins.
    pub(crate) fn begin_turn(&mut self, client: u32) -> bool
        ensures turn { result ≡ is_holder client self.old }
        ensures seats { self.new ≡ begins_turn client self.old }
    {
        let is_holder = self.is_holder(client);
        if is_holder {
            self.at_work = true;
        }
        is_holder
    }
}

// Whether the client is expected. Without a seat it is not.
fn set_seat(expected: &mut Vec<bool>, client: u32, is_expected: bool)
    ensures { expected.new.items ≡ slice_set expected.old.items client is_expected }
{
    let place = client as usize;
    if place < expected.len() {
        expected[place] = is_expected;
    }
}
