//! Stores in memory: that calls succeed where there is memory, that the formula of a cut gives the bytes that were worked out
//! by hand, and what a hook is told.
use dali_fuse::{CallKind, Fuse, Hook, Watch};
use dali_memstore::MemoryStore;
use dali_store::{FileName, Store, StoreFault};
use std::alloc::{AllocError, Global};
use std::cell::Cell;
use std::test::Fail;

// What stands in a file, with 99 past its end, after a write that was synced, another one, and a cut.
fn cut_file<V: Store>(
    store: &mut V,
    file: FileName,
    synced: &[u8],
    at: u64,
    bytes: &[u8],
    choice: u32,
) -> Result<[u8; 6], StoreFault> {
    store.write_at(file, 0, synced)?;
    store.sync(file)?;
    if at > store.length(file)? {
        return Err(StoreFault);
    }
    store.write_at(file, at, bytes)?;
    store.cut(choice)?;
    let mut read = [99; 6];
    store.read_at(file, 0, &mut read)?;
    Ok(read)
}

// The same of a new store.
fn cut_new(
    alloc: Global,
    file: FileName,
    synced: &[u8],
    at: u64,
    bytes: &[u8],
    choice: u32,
) -> Result<[u8; 6], StoreFault> {
    let mut store = MemoryStore::new(alloc, Vec::new(alloc));
    cut_file(&mut store, file, synced, at, bytes, choice)
}

#[test]
fn a_cut_gives_the_bytes_of_its_formula(rt: HostRuntime) -> Result<(), Fail> {
    let alloc = rt.alloc();
    // Over 1 2 3, at 1, come 7 8 9. 31 choice + 17 file + 7 place, at the places 1, 2 and 3, are
    // 69, 76, 83: the old byte, the new one, 2 + 3
    // 100, 107, 114: the new byte, 3 + 2, and 0 past the old end
    // 131, 138, 145
    // 86, 93, 100
    // 103, 110, 117
    // 120, 127, 134
    // 7912, 7919, 7926: 255 + 2 is 1 modulo 256
    for (choice, file, second, third, fourth) in [
        (0, FileName::Log, 7, 8, 9),
        (2, FileName::Log, 2, 8, 5),
        (3, FileName::Log, 7, 5, 0),
        (4, FileName::Log, 5, 3, 9),
        (1, FileName::ImageB, 2, 3, 99),
        (2, FileName::ImageA, 3, 3, 9),
        (2, FileName::ImageB, 7, 4, 0),
        (2, FileName::Anchor, 2, 8, 5),
        (255, FileName::Log, 7, 1, 0),
    ] {
        let read = cut_new(alloc, file, &[1, 2, 3], 1, &[7, 8, 9], choice)?;
        assert_eq!(rt; read, [1, second, third, fourth, 99, 99]);
    }
    // Over an empty file 62, 69, 76, 83; in the middle of a file 169, 176.
    assert_eq!(rt;
        (
            cut_new(alloc, FileName::Log, &[], 0, &[11, 12, 13, 14], 2),
            cut_new(alloc, FileName::Log, &[1, 2, 3, 4, 5], 2, &[7, 7], 5)
        ),
        (Ok([2, 0, 13, 5, 99, 99]), Ok([1, 2, 7, 8, 5, 99]))
    );
    Ok(())
}

// Each call once: the length, and what a read past the middle gave.
fn each_call<V: Store>(store: &mut V) -> Result<(u64, usize, [u8; 4]), StoreFault> {
    store.write_at(FileName::ImageB, 0, &[5, 6, 7])?;
    let length = store.length(FileName::ImageB)?;
    let mut read = [0; 4];
    let count = store.read_at(FileName::ImageB, 1, &mut read)?;
    store.sync(FileName::ImageB)?;
    store.cut(1)?;
    Ok((length, count, read))
}

// Whether each call succeeds.
fn works<V: Store>(store: &mut V) -> bool {
    each_call(store) == Ok((3, 2, [6, 7, 0, 0]))
}

// Whether each call succeeds, is failed by the fuse, and succeeds once it passes all calls on; the log's first byte then, and
// how many calls found no memory. Of the store's calls the one with the number `failing` fails.
fn through_a_fuse(
    alloc: Global,
    passes: Option<u64>,
    failing: u64,
) -> Result<(bool, bool, bool, Option<u8>, u64), AllocError> {
    let files = [
        vec![in alloc; 8]?,
        Vec::new(alloc),
        vec![in alloc; 3]?,
        Vec::new(alloc),
    ];
    let store = MemoryStore::with(files, vec![in alloc; failing]?);
    let mut fuse = Fuse::new(store, passes);
    let first = works(&mut fuse);
    let spent = fuse.spent();
    fuse.set(None);
    let second = works(&mut fuse);
    let store = fuse.into_inner();
    let log = store.file(FileName::Log).first().copied();
    Ok((first, spent, second, log, store.refused()))
}

#[test]
fn calls_succeed_but_those_that_are_to_fail(rt: HostRuntime) -> Result<(), Fail> {
    let alloc = rt.alloc();
    for (passes, failing, first, spent) in [
        (None, 99, true, false),
        (None, 0, false, false),
        (None, 1, false, false),
        (None, 2, false, false),
        (None, 3, false, false),
        (None, 4, false, false),
        (Some(0), 99, false, true),
        (Some(1), 99, false, true),
        (Some(2), 99, false, true),
        (Some(3), 99, false, true),
        (Some(4), 99, true, false),
        (Some(5), 99, true, false),
    ] {
        assert_eq!(rt;
            through_a_fuse(alloc, passes, failing)?,
            (first, spent, true, Some(8), 0)
        );
    }
    Ok(())
}

type Told = (CallKind, Option<FileName>, u64, u64);

#[derive(Drop)]
struct Recorder<'a> {
    number: u64,
    order: &'a Cell<u64>,
    last: &'a Cell<Told>,
}

impl<'a> Hook for Recorder<'a> {
    fn called(&self, kind: CallKind, file: Option<FileName>, at: u64, length: u64) {
        let order = self.order.get().wrapping_mul(10).wrapping_add(self.number);
        self.order.set(order);
        self.last.set((kind, file, at, length));
    }
}

// Each kind of call once, and what was told of it last.
fn told_calls<V: Store>(store: &mut V, last: &Cell<Told>) -> Result<[Told; 5], StoreFault> {
    store.write_at(FileName::Log, 0, &[5, 6, 7])?;
    let write = last.get();
    store.read_at(FileName::Log, 1, &mut [0; 4])?;
    let read = last.get();
    store.length(FileName::ImageA)?;
    let length = last.get();
    store.sync(FileName::Anchor)?;
    let sync = last.get();
    store.cut(0)?;
    Ok([write, read, length, sync, last.get()])
}

// Each digit of the order is a hook's number: the outer hook, then the inner one, once for each call.
#[test]
fn a_hook_is_told_before_the_call(rt: HostRuntime) -> Result<(), Fail> {
    let alloc = rt.alloc();
    let order = Cell::new(0);
    let last = Cell::new((CallKind::Cut, None, 0, 0));
    let within = Recorder {
        number: 2,
        order: &order,
        last: &last,
    };
    let around = Recorder {
        number: 1,
        order: &order,
        last: &last,
    };
    let store = MemoryStore::new(alloc, Vec::new(alloc));
    let mut store = Watch::new(Fuse::new(Watch::new(store, within), Some(10)), around);
    let told = told_calls(&mut store, &last)?;
    let works = works(&mut store);
    let wanted = [
        (CallKind::Write, Some(FileName::Log), 0, 3),
        (CallKind::Read, Some(FileName::Log), 1, 4),
        (CallKind::Length, Some(FileName::ImageA), 0, 0),
        (CallKind::Sync, Some(FileName::Anchor), 0, 0),
        (CallKind::Cut, None, 0, 0),
    ];
    assert!(rt; told == wanted && works && order.get() == 12121212121212121212);
    Ok(())
}

// What a drop of the log below its last byte answers, and the place from which on the log is kept then.
fn drops<V: Store>(store: &mut V) -> Result<(u64, u64), StoreFault> {
    let length = store.length(FileName::Log)?;
    if length == 0 {
        return Err(StoreFault);
    }
    let dropped = store.drop_log(length - 1)?;
    Ok((dropped, store.first_kept()?))
}

// The same through a fuse that passes so many calls on, and what was told last of these.
fn dropped_through(
    alloc: Global,
    passes: u64,
) -> Result<(Result<(u64, u64), StoreFault>, Told), AllocError> {
    let order = Cell::new(0);
    let last = Cell::new((CallKind::Cut, None, 0, 0));
    let files = [
        vec![in alloc; 8, 9]?,
        Vec::new(alloc),
        Vec::new(alloc),
        Vec::new(alloc),
    ];
    let store = MemoryStore::with(files, Vec::new(alloc));
    let hook = Recorder {
        number: 1,
        order: &order,
        last: &last,
    };
    let mut store = Watch::new(Fuse::new(store, Some(passes)), hook);
    let dropped = drops(&mut store);
    Ok((dropped, last.get()))
}

#[test]
fn a_log_in_one_piece_is_kept_whole(rt: HostRuntime) -> Result<(), Fail> {
    let alloc = rt.alloc();
    let log = Some(FileName::Log);
    for (passes, dropped, told) in [
        (1, Err(StoreFault), (CallKind::DropLog, log, 1, 0)),
        (2, Err(StoreFault), (CallKind::FirstKept, log, 0, 0)),
        (3, Ok((0, 0)), (CallKind::FirstKept, log, 0, 0)),
    ] {
        assert!(rt; dropped_through(alloc, passes)? == (dropped, told));
    }
    Ok(())
}
