//! Streams and stores whose calls are counted.
ghost use Rattle.std.specs.Prelude.{◌≡◌};

use dali_store::{FileName, Store, StoreFault};
use dali_streams::{Failed, Sink, Source};

/// Passes every call on with its answer, and counts it.
#[derive(Drop)]
pub struct Counted<T> {
    inner: T,
    calls: u64,
}

impl<T> Counted<T> {
    /// None is counted yet.
    pub fn new(inner: T) -> Counted<T> {
        Counted { inner, calls: 0 }
    }

    /// How many calls there were.
    pub fn calls(&self) -> u64 {
        self.calls
    }

    /// What the calls are passed on to.
    pub fn inner(&self) -> &T {
        &self.inner
    }

    /// What the calls were passed on to.
    pub fn into_inner(self) -> T {
        self.inner
    }

    fn count(&mut self)
        ensures { self.new.inner ≡ self.old.inner }
    {
        self.calls = self.calls.saturating_add(1);
    }
}

impl<S: Source> Source for Counted<S> {
    ghost left = { λ c. S.left c.inner };

    ghost faults = { λ c. S.faults c.inner };

    fn read(&mut self, into: &mut [u8]) -> Result<usize, Failed> {
        self.count();
        self.inner.read(into)
    }
}

impl<K: Sink> Sink for Counted<K> {
    ghost taken = { λ c. K.taken c.inner };

    ghost faults = { λ c. K.faults c.inner };

    fn write(&mut self, bytes: &[u8]) -> Result<usize, Failed> {
        self.count();
        self.inner.write(bytes)
    }
}

impl<V: Store> Store for Counted<V> {
    ghost told = { λ c. V.told c.inner };

    ghost may_leave = { λ c. V.may_leave c.inner };

    ghost moment = { λ c. V.moment c.inner };

    ghost left_since = { λ c. V.left_since c.inner };

    ghost faults = { λ c. V.faults c.inner };

    ghost lets_pass = { λ c. V.lets_pass c.inner };

    ghost cuts = { λ c. V.cuts c.inner };

    ghost droppable = { λ c. V.droppable c.inner };

    ghost dropped_to = { λ c. V.dropped_to c.inner };

    ghost reads_now = { λ c. V.reads_now c.inner };

    ghost no_longer = { λ c. V.no_longer c.inner };

    ghost tells_cuts = { λ c. V.tells_cuts c.inner };

    ghost cuts_leave = { λ c. V.cuts_leave c.inner };

    ghost counts_now = { λ c. V.counts_now c.inner };

    ghost only_now = { λ c. V.only_now c.inner };

    fn length(&mut self, file: FileName) -> Result<u64, StoreFault> {
        self.count();
        self.inner.length(file)
    }

    fn read_at(&mut self, file: FileName, at: u64, into: &mut [u8]) -> Result<usize, StoreFault> {
        self.count();
        self.inner.read_at(file, at, into)
    }

    fn write_at(&mut self, file: FileName, at: u64, bytes: &[u8]) -> Result<(), StoreFault> {
        self.count();
        self.inner.write_at(file, at, bytes)
    }

    fn sync(&mut self, file: FileName) -> Result<(), StoreFault> {
        self.count();
        self.inner.sync(file)
    }

    fn cut(&mut self, choice: u32) -> Result<(), StoreFault> {
        self.count();
        self.inner.cut(choice)
    }

    fn drop_log(&mut self, below: u64) -> Result<u64, StoreFault> {
        self.count();
        self.inner.drop_log(below)
    }

    fn first_kept(&mut self) -> Result<u64, StoreFault> {
        self.count();
        self.inner.first_kept()
    }
}
