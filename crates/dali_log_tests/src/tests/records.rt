//! That the fields of a block stand where docs/FORMATS.md has them: bytes of a model that knows nothing of `dali_record`.
use dali_bytes::Reader;
use dali_record::{Block, Op, Outcome, Record, Undo, decode};
use dali_words::Value;
use std::alloc::Global;
use std::test::Fail;

// A record a line. Each operation, outcome and undo stands in one of them.
const BLOCKS: &str = "\
030000000000000004000000000000000c00000000010000000000000076000000000000002b00000000000000000101000000000000002100
030000000000000001000000000000000500000000020000000000000009000000000000000e0000000000000000000000000000000e00000000000000010000000000000005000000000000000903000400
03000000000000000400000000000000060000000002000000000000001d2492492492492493000000000000000300000000000000000400
030000000000000004000000000000000c0000000003010000000000000030000000000000000d00000000000000100000000000000002050501
0300000000000000010000000000000005000000010403616263000000000000ff000000000000000000000000000000ff000000000000000001000000000000000500000000000000036162630000000000000000000000000000000000000000000000000000000000000000000000000006010101
0300000000000000020000000000000023000000030401400101010101010100000000000000000100000000000000000700
0300000000000000030000000000000015000000040501000000000000ff004000000000000015000000000000000008014000
03000000000000000900000000000000050000000105010000000000000700000001000000000400000000000000000c000001000000000000
0300000000000000010000000000000005000000010601017a000000000000ff006162630000000007000000000000fc0000000000000000017a000000000000000000000000000000000000000000000000000000000000000000000000000000090301000000000000000361626300000000000000000000000000000000000000000000000000000000000000000000000000
0300000000000000090000000000000005000000010601027a7a0000000000000300000000000000000700000000000000000b000000000000000600
03000000000000000900000000000000050000000107010000000000000100000000000000000700000000000000000a000000000000000700
030000000000000004000000000000000c0000000407010000000000000700000000000000000400000000000001000000000000000002050201
0c0000000000000001000000000000000500000001080100000000000001000000000000000001000000000000010000000000000000000d00
0c0000000000000004000000000000000700000005090200000000000100000000000000000002000000000001000000000000000000010d00
0c00000000000000070000000000000015000000010a020000000000000028583a316c72662d597e667b236d757623637b6f412a415b5e5a7c2e6879423973a162703141417b6b0000000000fc00005a227c00000000030000000000fc00000000000000000028583a316c72662d597e667b236d757623637b6f412a415b5e5a7c2e6879423973a162703141417b6b0d00
0c0000000000000008000000000000000c000000000b0300000000000004000000000000000001000000000000040000000000000000000d00
0c00000000000000040000000000000007000000010c0000000000000000020000000000000002000000000000000200000000000000010d00
03000000000000000100000000000000050000000001249249249249249300000000000000000000000000000000020000
";

// What a block does, the words that it leaves and zeros behind them, what it found, and what takes it back.
type Fields = (Op, [u64; 8], Outcome, Option<Undo>);

const LONG: [u64; 5] = [
    0x583a316c72662d59,
    0x7e667b236d757623,
    0x637b6f412a415b5e,
    0x5a7c2e6879423973,
    0xa162703141417b6b,
];

const NONE: [u64; 8] = [0; 8];

const ONE: [u64; 8] = [1, 0, 0, 0, 0, 0, 0, 0];

// The fields of the block in a line. The value's bytes are those that the line has.
fn fields(line: usize, value: Value) -> Fields {
    match line {
        0 => (
            Op::Look,
            NONE,
            Outcome::Found {
                entry: 1,
                place: 33,
            },
            None,
        ),
        1 => (
            Op::Add { place: 9 },
            [1, 5, 9, 0, 0, 0, 0, 0],
            Outcome::Added { entry: 0 },
            Some(Undo::FreeEntry { entry: 0 }),
        ),
        2 => (Op::Add { place: 29 }, NONE, Outcome::NoEntry, None),
        3 => (
            Op::KillEntry { entry: 1 },
            [2, 0, 0, 0, 0, 0, 0, 0],
            Outcome::Killed,
            Some(Undo::ReviveEntry { entry: 1 }),
        ),
        4 => (
            Op::Put { value },
            [1, 5, 3, 0x6162630000000000, 0, 0, 0, 0],
            Outcome::Put { cell: 1 },
            Some(Undo::FreeCell { cell: 1 }),
        ),
        5 => (Op::Put { value }, NONE, Outcome::NoCell, None),
        6 => (Op::Read { cell: 1 }, NONE, Outcome::Value { value }, None),
        7 => (
            Op::Read { cell: 1 },
            NONE,
            Outcome::OddLength { length: 1 << 40 },
            None,
        ),
        8 => (
            Op::Change { cell: 1, value },
            [1, 0x7a00000000000000, 0, 0, 0, 0, 0, 0],
            Outcome::Changed,
            Some(Undo::Restore {
                cell: 1,
                length: 3,
                words: [0x6162630000000000, 0, 0, 0, 0],
            }),
        ),
        9 => (
            Op::Change { cell: 1, value },
            NONE,
            Outcome::OtherKey { key: 6 },
            None,
        ),
        10 => (
            Op::KillCell { cell: 1 },
            NONE,
            Outcome::NotLive { state: 7 },
            None,
        ),
        11 => (
            Op::KillCell { cell: 1 },
            [2, 0, 0, 0, 0, 0, 0, 0],
            Outcome::Killed,
            Some(Undo::ReviveCell { cell: 1 }),
        ),
        12 => (Op::FreeCell { cell: 1 }, NONE, Outcome::Undone, None),
        13 => (Op::ReviveCell { cell: 2 }, ONE, Outcome::Undone, None),
        14 => (
            Op::Restore {
                cell: 2,
                length: 40,
                words: LONG,
            },
            [40, LONG[0], LONG[1], LONG[2], LONG[3], LONG[4], 0, 0],
            Outcome::Undone,
            None,
        ),
        15 => (Op::FreeEntry { entry: 3 }, NONE, Outcome::Undone, None),
        16 => (Op::ReviveEntry { entry: 0 }, ONE, Outcome::Undone, None),
        _ => (Op::Look, NONE, Outcome::Absent { overflow: false }, None),
    }
}

// The value that stands in a line.
fn value(line: usize) -> Option<Value> {
    match line {
        4 => Value::from_bytes(b"abc"),
        5 | 6 => Value::from_bytes(b"@"),
        9 => Value::from_bytes(b"zz"),
        _ => Value::from_bytes(b"z"),
    }
}

// Whether a block has these fields.
fn has(block: &Block, fields: &Fields) -> bool {
    block.op == fields.0
        && fields.1.starts_with(block.after.as_slice())
        && block.outcome == fields.2
        && block.undo == fields.3
}

// Whether the record that begins these bytes has a block with these fields.
fn begins_with(alloc: Global, bytes: &[u8], fields: &Fields) -> bool {
    let mut reader = Reader::new(bytes);
    let Ok(found) = decode(alloc, &mut reader) else {
        return false;
    };
    match &found {
        Record::Forward { block, .. } => has(block, fields),
        Record::Back { block, .. } => has(block, fields),
        _ => false,
    }
}

// Whether a line is a record whose block has the line's fields.
fn is_read(alloc: Global, line: usize, digits: &str) -> bool {
    let Some(value) = value(line) else {
        return false;
    };
    match hex::decode(alloc, digits) {
        Ok(bytes) => begins_with(alloc, &bytes, &fields(line, value)),
        Err(_) => false,
    }
}

#[test]
fn fields_stand_where_the_format_has_them(rt: HostRuntime) -> Result<(), Fail> {
    for (line, digits) in BLOCKS.lines().enumerate() {
        assert!(rt; is_read(rt.alloc(), line, digits), "{digits}");
    }
    Ok(())
}
