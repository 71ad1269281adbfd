//! A store that reads otherwise from a call on.
use dali_store::{FileName, Store, StoreFault};

/// Passes every call on. From one of the reads of the log on, a byte of the log reads as one more than it is. It doesn't tell what
/// its reads give.
#[derive(Drop)]
pub struct Unsteady<V: Store> {
    inner: V,
    reads: u64,
    from: u64,
    place: u64,
}

impl<V: Store> Unsteady<V> {
    /// The byte at this place is changed from that read of the log on, of which the first one has the number 0.
    pub fn new(inner: V, from: u64, place: u64) -> Unsteady<V> {
        Unsteady {
            inner,
            reads: 0,
            from,
            place,
        }
    }

    /// What the calls were passed on to.
    pub fn into_inner(self) -> V {
        self.inner
    }
}

// Adds one to the byte that was read from this place of the file, if it was.
fn change(bytes: &mut [u8], at: u64, place: u64) {
    if place < at || place - at >= bytes.len() as u64 {
        return;
    }
    let index = (place - at) as usize;
    bytes[index] = bytes[index].wrapping_add(1);
}

impl<V: Store> Store for Unsteady<V> {
    ghost use Rattle.std.specs.Prelude.{⊤, None, refl};

    ghost told = { λ u. None };

    ghost may_leave = { λ u c. ⊤ };

    ghost moment = { λ u. 0 };

    ghost left_since = { λ u t c. ⊤ };

    ghost faults = { λ u. V.faults u.inner };

    ghost lets_pass = { λ u. None };

    ghost cuts = { λ u choice. None };

    ghost droppable = { λ u below. 0 };

    ghost dropped_to = { λ u. 0 };

    ghost reads_now = { λ u. tt };

    ghost no_longer = { λ u. tt };

    ghost tells_cuts = { λ u choice. refl };

    ghost cuts_leave = { λ u choice. tt };

    ghost counts_now = { λ u t c le left. left };

    ghost only_now = { λ u c left. left };

    fn length(&mut self, file: FileName) -> Result<u64, StoreFault> {
        self.inner.length(file)
    }

    fn read_at(&mut self, file: FileName, at: u64, into: &mut [u8]) -> Result<usize, StoreFault> {
        let count = self.inner.read_at(file, at, into)?;
        if file == FileName::Log {
            if self.reads >= self.from {
                change(into, at, self.place);
            }
            self.reads = self.reads.saturating_add(1);
        }
        Ok(count)
    }

    fn write_at(&mut self, file: FileName, at: u64, bytes: &[u8]) -> Result<(), StoreFault> {
        // a place within the file is all that may be written to; each caller keeps to it
        let length = self.inner.length(file)?;
        self.inner.write_at(file, at.min(length), bytes)
    }

    fn sync(&mut self, file: FileName) -> Result<(), StoreFault> {
        self.inner.sync(file)
    }

    fn cut(&mut self, choice: u32) -> Result<(), StoreFault> {
        self.inner.cut(choice)
    }

    fn drop_log(&mut self, _below: u64) -> Result<u64, StoreFault> {
        Ok(0) // It drops nothing.
    }

    fn first_kept(&mut self) -> Result<u64, StoreFault> {
        Ok(0)
    }
}
