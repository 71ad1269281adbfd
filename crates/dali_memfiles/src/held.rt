//! A file, and what it was where a removal of it waits for a sync.
ghost use Rattle.std.specs.Prelude.{◌≡◌, ◌≤◌, length, OnOk, OnErr};
ghost use Rattle.dali_memfiles.specs.Held.{no_file, held_wrote, held_kept, held_removed, held_restored, held_cut};

use dali_disk::Disk;
use std::alloc::{AllocError, Global};
use std::marker::Model;
use std::mem;

/// A file. Where it was removed since its last sync, also what it was before.
#[derive(Drop)]
pub struct Held {
    file: Disk,
    before: Option<Disk>,
}

impl Model for Held {
    ghost use Rattle.dali_memfiles.specs.Held.{HeldState, IsHeldSound};

    ghost Value = { HeldState };

    ghost view = { λ h. record { file = h.file; before = h.before } };

    ghost invariant = { λ h. IsHeldSound (record { file = h.file; before = h.before }) };
}

impl Held {
    /// A file that isn't there.
    pub fn new(alloc: Global) -> Self
        ensures { result ≡ no_file }
    {
        Held {
            file: Disk::new(alloc, Vec::new(alloc)),
            before: None,
        }
    }

    /// What reads give.
    pub fn bytes(&self) -> &[u8]
        ensures { result.now ≡ self.now.file.seen }
    {
        self.file.bytes()
    }

    /// Writes over what is there, and past the end. Unchanged where memory is refused.
    pub fn write(&mut self, alloc: Global, at: usize, bytes: &[u8]) -> Result<(), AllocError>
        requires { at ≤ length self.old.file.seen }
        ensures ok { OnOk result (self.new ≡ held_wrote at bytes.now self.old) }
        ensures err { OnErr result (self.new ≡ self.old) }
    {
        self.file.write(alloc, at, bytes)
    }

    /// Keeps what was written, or the removal.
    pub fn sync(&mut self)
        ensures { self.new ≡ held_kept self.old }
    {
        self.file.sync();
        self.before = None;
    }

    /// Removes the file. A second removal before a sync forgets what was written between the two.
    pub fn remove(&mut self, alloc: Global)
        ensures { self.new ≡ held_removed self.old }
    {
        let file = mem::replace(&mut self.file, Disk::new(alloc, Vec::new(alloc)));
        if self.before.is_none() {
            self.before = Some(file);
        }
    }

    // Takes back a removal that waits for a sync.
    fn restore(&mut self)
        ensures { self.new ≡ held_restored self.old }
    {
        if let Some(before) = self.before.take() {
            self.file = before;
        }
    }

    /// A crash: choice 0 keeps what was written or removed. Every other one takes a removal back, and then drops or mixes
    /// what was written, as [`Disk::cut`] says.
    pub fn cut(&mut self, choice: u32, number: usize)
        ensures { self.new ≡ held_cut choice number self.old }
    {
        if choice == 0 {
            self.sync();
        } else {
            self.restore();
            self.file.cut(choice, number);
        }
    }
}
