//! What stands at a place of a log, and that what isn't asked for isn't read.
use dali_fuse::{CallKind, Hook, Watch};
use dali_log::{Found, LogError, LogReader, find};
use dali_memstore::MemoryStore;
use dali_store::{FileName, Store};
use std::alloc::Global;
use std::cell::Cell;
use std::test::Fail;

// In each line a name, a log in base 16, a place, and what stands there: a batch's body and the place behind it, the end, or
// why nothing.
const PLACES: &str = "\
the first batch: a50000000a01010000000100000001a500000002080900 at 0 = [1, 1, 0, 0, 0, 1, 0, 0, 0, 1] 15
the second batch: a50000000a01010000000100000001a500000002080900 at 15 = [8, 9] 22
the end: a50000000a01010000000100000001a500000002080900 at 22 = end
no gate: a50000000a01010000000100000001a500000002080900 at 23 = BadLog { at: 23 }
a length of 0: a50000000a01010000000100000001a50000000008 at 15 = BadLog { at: 16 }
a length of one more than there are bytes: a50000000a01010000000100000001a50000000208 at 15 = BadLog { at: 16 }
a length of 2^30 + 1: a50000000a01010000000100000001a54000000108 at 15 = BadLog { at: 16 }
a length that is cut short: a50000000a01010000000100000001a50000 at 15 = BadLog { at: 16 }
";

// A store in memory with this log.
fn store_of(alloc: Global, log: Vec<u8>) -> MemoryStore {
    let files = [log, Vec::new(alloc), Vec::new(alloc), Vec::new(alloc)];
    MemoryStore::with(files, Vec::new(alloc))
}

// What stands at a place of a log.
fn found_text(alloc: Global, log: Vec<u8>, at: u64) -> Option<String> {
    let mut store = store_of(alloc, log);
    match find(alloc, &mut store, at) {
        Ok(Found::Batch { body, next }) => {
            let bytes = body.bytes();
            format!(in alloc; "{bytes:?} {next}").ok()
        }
        Ok(Found::End) => String::from_str(alloc, "end").ok(),
        Err(error) => format!(in alloc; "{error:?}").ok(),
    }
}

// What a line asks, with what is answered.
fn answered(alloc: Global, line: &str) -> Option<String> {
    let (asked, _) = line.split_once(" = ")?;
    let (_, question) = asked.split_once(": ")?;
    let (log, at) = question.split_once(" at ")?;
    let log = hex::decode(alloc, log).ok()?;
    let answer = found_text(alloc, log, at.parse::<u64>().ok()?)?;
    format!(in alloc; "{asked} = {answer}").ok()
}

#[test]
fn a_place_has_a_batch_or_the_end_or_is_bad(rt: HostRuntime) -> Result<(), Fail> {
    for line in PLACES.lines() {
        let found = answered(rt.alloc(), line).ok_or("no answer")?;
        assert_eq!(rt; found.as_str(), line);
    }
    Ok(())
}

// A first batch, 20 bytes that are none, a batch of two commits and an audit's begin, and one of an audit's begin.
const GAP: &str = "\
a50000000a01010000000100000001\
0707070707070707070707070707070707070707\
a500000013050000000000000001050000000000000001\
08a5000000010800";

// Counts the reads of a log, and those of them that reach into a range of its bytes.
#[derive(Drop)]
struct Reads<'a> {
    from: u64,
    to: u64,
    all: &'a Cell<u64>,
    within: &'a Cell<u64>,
}

impl<'a> Hook for Reads<'a> {
    fn called(&self, kind: CallKind, file: Option<FileName>, at: u64, length: u64) {
        if kind == CallKind::Read && file == Some(FileName::Log) {
            self.all.set(self.all.get().wrapping_add(1));
            if at < self.to && at.saturating_add(length) > self.from {
                self.within.set(self.within.get().wrapping_add(1));
            }
        }
    }
}

// From a place on, where the records begin, which of them are the first of their batch, and where the log ends.
fn placed_in<V: Store>(
    alloc: Global,
    store: &mut V,
    at: u64,
) -> Result<(Vec<(u64, bool)>, u64), LogError> {
    let (mut reader, _) = LogReader::open(alloc, store)?;
    reader.seek(at)?;
    let mut placed = Vec::new(alloc);
    'records: for _ in 0..10 {
        match reader.next(store)? {
            Some(next) => placed.push((next.at, next.first))?,
            None => break 'records,
        }
    }
    Ok((placed, reader.at()))
}

// Whether these records are found from a place on in the log with a gap, and where it ends; how many reads of the log were made
// beside the first, and how many of them reached bytes between the first batch and that place.
fn read_from(
    alloc: Global,
    at: u64,
    expected: &[(u64, bool)],
) -> Result<(bool, u64, bool, u64), LogError> {
    let all = Cell::new(0);
    let within = Cell::new(0);
    let hook = Reads {
        from: 15,
        to: at,
        all: &all,
        within: &within,
    };
    let Ok(log) = hex::decode(alloc, GAP) else {
        return Err(LogError::Unformatted);
    };
    let mut store = Watch::new(store_of(alloc, log), hook);
    let (placed, end) = placed_in(alloc, &mut store, at)?;
    Ok((
        placed.as_slice() == expected,
        end,
        all.get() > 1,
        within.get(),
    ))
}

#[test]
fn a_log_is_read_from_a_place_on(rt: HostRuntime) -> Result<(), Fail> {
    let alloc = rt.alloc();
    assert_eq!(rt;
        (
            read_from(
                alloc,
                35,
                &[(40, true), (49, false), (58, false), (64, true)]
            ),
            read_from(alloc, 59, &[(64, true)]),
            read_from(alloc, 65, &[]),
            read_from(alloc, 66, &[]),
            read_from(alloc, 67, &[])
        ),
        (
            Ok((true, 65, true, 0)),
            Ok((true, 65, true, 0)),
            Ok((true, 65, true, 0)),
            Err(LogError::BadLog { at: 66 }),
            Err(LogError::BadLog { at: 67 })
        )
    );
    Ok(())
}
