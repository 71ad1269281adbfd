//! A store of whose log is told how far it is read and written.
ghost use Rattle.std.specs.Prelude.{◌≡◌};
ghost use Rattle.dali_console.specs.Stores.{followed};

use crate::Progress;
use dali_store::{FileName, Store, StoreFault};
use std::io::{IsTerminal, Print};

/// Passes every call on with its answer. Before a read or a write of the log is made, it is told to a `Progress`, and so is
/// the log's length once it was asked.
#[derive(Drop)]
pub struct Followed<'a, V: Store, E: Print + IsTerminal + Drop> {
    store: V,
    progress: &'a Progress<E>,
}

impl<'a, V: Store, E: Print + IsTerminal + Drop> Followed<'a, V, E> {
    /// This store, followed.
    pub fn new(store: V, progress: &'a Progress<E>) -> Self
        ensures { followed result ≡ store }
    {
        Followed { store, progress }
    }

    /// The store.
    pub fn into_inner(self) -> V
        ensures { result ≡ followed self.entry }
    {
        self.store
    }

    // Tells what was asked and answered of a length.
    fn hears(&self, file: FileName, length: &Result<u64, StoreFault>) {
        if let Ok(length) = length {
            if file == FileName::Log {
                self.progress.has_length(*length);
            }
        }
    }
}

impl<V: Store, E: Print + IsTerminal + Drop> Store for Followed<'_, V, E> {
    ghost told = { λ f. V.told f.store };

    ghost may_leave = { λ f. V.may_leave f.store };

    ghost moment = { λ f. V.moment f.store };

    ghost left_since = { λ f. V.left_since f.store };

    ghost faults = { λ f. V.faults f.store };

    ghost lets_pass = { λ f. V.lets_pass f.store };

    ghost cuts = { λ f. V.cuts f.store };

    ghost droppable = { λ f. V.droppable f.store };

    ghost dropped_to = { λ f. V.dropped_to f.store };

    ghost reads_now = { λ f. V.reads_now f.store };

    ghost no_longer = { λ f. V.no_longer f.store };

    ghost tells_cuts = { λ f. V.tells_cuts f.store };

    ghost cuts_leave = { λ f. V.cuts_leave f.store };

    ghost counts_now = { λ f. V.counts_now f.store };

    ghost only_now = { λ f. V.only_now f.store };

    fn length(&mut self, file: FileName) -> Result<u64, StoreFault> {
        let length = self.store.length(file);
        self.hears(file, &length);
        length
    }

    fn read_at(&mut self, file: FileName, at: u64, into: &mut [u8]) -> Result<usize, StoreFault> {
        if file == FileName::Log {
            self.progress.reads(at, into.len() as u64);
        }
        self.store.read_at(file, at, into)
    }

    fn write_at(&mut self, file: FileName, at: u64, bytes: &[u8]) -> Result<(), StoreFault> {
        if file == FileName::Log {
            self.progress.writes(at, bytes.len() as u64);
        }
        self.store.write_at(file, at, bytes)
    }

    fn sync(&mut self, file: FileName) -> Result<(), StoreFault> {
        self.store.sync(file)
    }

    fn cut(&mut self, choice: u32) -> Result<(), StoreFault> {
        self.store.cut(choice)
    }

    fn drop_log(&mut self, below: u64) -> Result<u64, StoreFault> {
        self.store.drop_log(below)
    }

    fn first_kept(&mut self) -> Result<u64, StoreFault> {
        self.store.first_kept()
    }
}
