//! A store whose calls are told to a hook.
ghost use Rattle.std.specs.Prelude.{◌≡◌};
ghost use Rattle.dali_fuse.specs.Watch.{watched, hook_of};

use dali_store::{FileName, Store, StoreFault};

/// The kinds of calls of a store.
#[derive(Clone, Copy, PartialEq, Eq)]
pub enum CallKind {
    Length,
    Read,
    Write,
    Sync,
    Cut,
    DropLog,
    FirstKept,
}

/// What is told of the calls of a store.
pub trait Hook {
    /// A call is about to be made. `file` is None for a cut alone. `at` is the place of a read or a write, or below which
    /// the log is dropped, and `length` the number of bytes of a read or a write. Both are 0 for other calls.
    fn called(&self, kind: CallKind, file: Option<FileName>, at: u64, length: u64);
}

/// Tells the hook of each call before it is made, and passes every call on with its answer.
/// By it the program shows how far a long run is, and tests count or hold the calls of a store.
#[derive(Drop)]
pub struct Watch<V: Store, H: Hook> {
    store: V,
    hook: H,
}

impl<V: Store, H: Hook> Watch<V, H> {
    /// A store whose calls are told to this hook.
    pub fn new(store: V, hook: H) -> Watch<V, H>
        ensures store { watched result ≡ store }
        ensures hook { hook_of result ≡ hook }
    {
        Watch { store, hook }
    }
}

impl<V: Store, H: Hook> Store for Watch<V, H> {
    ghost told = { λ w. V.told w.store };

    ghost may_leave = { λ w. V.may_leave w.store };

    ghost moment = { λ w. V.moment w.store };

    ghost left_since = { λ w. V.left_since w.store };

    ghost faults = { λ w. V.faults w.store };

    ghost lets_pass = { λ w. V.lets_pass w.store };

    ghost cuts = { λ w. V.cuts w.store };

    ghost droppable = { λ w. V.droppable w.store };

    ghost dropped_to = { λ w. V.dropped_to w.store };

    ghost reads_now = { λ w. V.reads_now w.store };

    ghost no_longer = { λ w. V.no_longer w.store };

    ghost tells_cuts = { λ w. V.tells_cuts w.store };

    ghost cuts_leave = { λ w. V.cuts_leave w.store };

    ghost counts_now = { λ w. V.counts_now w.store };

    ghost only_now = { λ w. V.only_now w.store };

    fn length(&mut self, file: FileName) -> Result<u64, StoreFault> {
        self.hook.called(CallKind::Length, Some(file), 0, 0);
        self.store.length(file)
    }

    fn read_at(&mut self, file: FileName, at: u64, into: &mut [u8]) -> Result<usize, StoreFault> {
        self.hook
            .called(CallKind::Read, Some(file), at, into.len() as u64);
        self.store.read_at(file, at, into)
    }

    fn write_at(&mut self, file: FileName, at: u64, bytes: &[u8]) -> Result<(), StoreFault> {
        self.hook
            .called(CallKind::Write, Some(file), at, bytes.len() as u64);
        self.store.write_at(file, at, bytes)
    }

    fn sync(&mut self, file: FileName) -> Result<(), StoreFault> {
        self.hook.called(CallKind::Sync, Some(file), 0, 0);
        self.store.sync(file)
    }

    fn cut(&mut self, choice: u32) -> Result<(), StoreFault> {
        self.hook.called(CallKind::Cut, None, 0, 0);
        self.store.cut(choice)
    }

    fn drop_log(&mut self, below: u64) -> Result<u64, StoreFault> {
        self.hook
            .called(CallKind::DropLog, Some(FileName::Log), below, 0);
        self.store.drop_log(below)
    }

    fn first_kept(&mut self) -> Result<u64, StoreFault> {
        self.hook
            .called(CallKind::FirstKept, Some(FileName::Log), 0, 0);
        self.store.first_kept()
    }
}
