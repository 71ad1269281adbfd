//! What the tests of several crates do: a put from its first word to its record, and the death of a client.
ghost use Rattle.std.specs.Prelude.{◌≡◌, IfSome};
ghost use Rattle.dali_record.specs.Spelling.{IsOperation};
ghost use Rattle.dali_runs.specs.Regions.{IsOpen};
ghost use Rattle.dali_system.specs.UnderWay.{IsUnderWay};

use dali_att::State;
use dali_geometry::Geometry;
use dali_record::Op;
use dali_region::{Receipt, Region};
use dali_system::{Operation, System, SystemError};
use dali_words::Value;

/// What is answered to a begin.
pub type Begun = Result<(u64, Receipt), SystemError>;

/// What is answered to a call that makes a record.
pub type Noted = Result<Receipt, SystemError>;

/// The client of a live transaction dies.
pub fn die(system: &mut System, txn: u64, latched: Option<u32>) -> bool {
    match system.state(txn) {
        Some(State::Live) => {
            system.mark_dead(txn, latched);
            true
        }
        _ => false,
    }
}

/// The first heap region, formatted.
pub fn formatted() -> Option<Region> {
    match Geometry::new(1, 1) {
        Ok(geometry) => Some(Region::load(geometry.formatted(1))),
        Err(_) => None,
    }
}

/// What puts three bytes.
pub fn put() -> Option<Op>
    ensures { IfSome result IsOperation }
{
    match Value::from_bytes(b"abc") {
        Some(value) => Some(Op::Put { value }),
        None => None,
    }
}

/// Writes the words of an operation that has eight at most, and answers how many there were; then it is open.
pub fn finish(operation: &mut Operation, region: &mut Region) -> Option<u32>
    requires { IsUnderWay operation.old.txn operation.old.block operation.old.left operation.old.taken region.old }
    ensures same { (operation.new.txn ≡ operation.old.txn) × (operation.new.block ≡ operation.old.block) }
    ensures open { IfSome result (λ _. IsOpen region.new operation.new.txn operation.new.block) }
{
    for words in 0..9 {
        if !operation.update(region) {
            return Some(words);
        }
    }
    None
}

/// Performs an operation that writes one word or eight, and logs it for a transaction of the table.
#[tactic(auto, using(dali_system::proofs::Guards::some_row))]
pub fn perform(
    system: &mut System,
    region: &mut Region,
    txn: u64,
    op: Op,
) -> Option<Result<Receipt, SystemError>>
    requires { IsOperation op }
{
    let Ok(mut operation) = Operation::start(region, 1, txn, 7, op, true) else {
        return None;
    };
    let Some(_) = finish(&mut operation, region) else {
        return None;
    };
    match (system.state(txn), operation.block().op) {
        (Some(_), Op::Put { .. }) => Some(system.commit_op(region, txn, operation.block())),
        (Some(_), Op::KillCell { .. }) => Some(system.commit_op(region, txn, operation.block())),
        _ => None,
    }
}

/// Puts three bytes into the first cell of region 1, for the key 7 and a transaction of the table.
pub fn put_in(
    system: &mut System,
    region: &mut Region,
    txn: u64,
) -> Option<Result<Receipt, SystemError>> {
    match put() {
        Some(op) => perform(system, region, txn, op),
        None => None,
    }
}

/// Whether only the key, the length and the value of the first cell, which is free, are other words than those of a formatted
/// region, and the codeword tells no stray write.
pub fn is_free_again(region: &mut Region) -> Option<bool> {
    let geometry = Geometry::new(1, 1).ok()?;
    let mut words = geometry.formatted(1);
    words[9..12].copy_from_slice(&[7, 3, 0x6162_6300_0000_0000]);
    Some(region.words().as_slice() == words.as_slice() && region.check() == 0)
}
