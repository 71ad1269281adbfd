//! What a client has seen.
ghost use Rattle.std.specs.Prelude.{◌≡◌, ◌<◌, ◌+◌};
ghost use Rattle.dali_concurrent.specs.Entries.{client_note};
ghost use Rattle.dali_locked.specs.Begun.{Led};

use crate::history::{Beginning, Home, Mark, OfRound};
use dali_notes::Note;
use std::marker::{Model, PhantomData};

/// A client's number, and its note of the history.
#[derive(Drop)]
pub struct ClientNote<B: Beginning, H: Home> {
    pub(crate) id: u32,
    pub(crate) note: Note<Mark, OfRound<B>>,
    pub(crate) home: PhantomData<H>,
}

impl<B: Beginning, H: Home> Model for ClientNote<B, H> {
    ghost use Rattle.std.specs.Coded.{codes};
    ghost use Rattle.std.specs.Prelude.{◌≡◌};
    ghost use Rattle.dali_system.specs.Coded.{system_code};
    ghost use Rattle.dali_concurrent.specs.Entries.{client_note};
    ghost use Rattle.dali_locked.specs.Begun.{Led};
    ghost use Rattle.dali_locked.specs.Sights.{ClientSight};

    ghost Value = { ClientSight };

    ghost coded = { Prim.hlevel (codes, system_code) };

    ghost view = { λ c. record { id = c.id; seen = c.note.seen } };

    ghost invariant = { λ c. (c.note.table ≡ H.table) × (c.note.number ≡ client_note B.begun.count c.id) × Led B.begun c.note.seen };
}

impl<B: Beginning, H: Home> ClientNote<B, H> {
    /// The client with this number, which has done nothing.
    pub fn new(id: u32, note: Note<Mark, OfRound<B>>) -> ClientNote<B, H>
        requires note { (note.table ≡ H.table) × (note.number ≡ client_note B.begun.count id) }
        requires led { Led B.begun note.seen }
        ensures { result ≡ record { id = id; seen = note.seen } }
    {
        ClientNote {
            id,
            note,
            home: PhantomData,
        }
    }

    /// Its number.
    pub fn id(&self) -> u32
        ensures { result ≡ self.now.id }
    {
        self.id
    }

    /// Its number by the schedule, where 0 is who starts the clients.
    pub fn seat(&self) -> u32
        ensures seat { self.now.id < 4294967295 → result ≡ self.now.id + 1 }
        ensures led { Led B.begun self.now.seen }
    {
        self.id.saturating_add(1)
    }
}
