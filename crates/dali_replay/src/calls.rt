//! Calls on a map in memory, and whether each gets there the answer that was logged.
ghost use Rattle.std.specs.Prelude.{◌≡◌, ℕ, ◌==◌, if◌then◌else◌, ◌∷◌, [], IfOk, OnOk};
ghost use Rattle.dali_record.specs.Log.{calls_of, committed};
ghost use Rattle.dali_history.specs.Serial.{insert_after, update_after, delete_after, get_after, value_after, call_key};
ghost use Rattle.dali_replay.specs.Walking.{call_made, calls_made, serial_made};
ghost use Rattle.dali_replay.specs.Following.{value_at, Follows, survive_among};

use dali_record::{Answer, Call, Record};
use dali_words::Value;
use std::alloc::AllocError;
use std::collections::BTreeMap;

// What stands at the key after an insert with this answer, where it is allowed.
fn insert_after(value: Value, standing: Option<Value>, answer: &Answer) -> Option<Option<Value>>
    ensures { result ≡ insert_after value standing answer.now }
{
    match standing {
        None => match answer {
            Answer::Ok => Some(Some(value)),
            Answer::FullHeap => Some(None),
            Answer::FullIndex => Some(None),
            _ => None,
        },
        Some(found) => match answer {
            Answer::Exists => Some(Some(found)),
            _ => None,
        },
    }
}

// The same of an update.
fn update_after(value: Value, standing: Option<Value>, answer: &Answer) -> Option<Option<Value>>
    ensures { result ≡ update_after value standing answer.now }
{
    match standing {
        None => match answer {
            Answer::Missing => Some(None),
            _ => None,
        },
        Some(_) => match answer {
            Answer::Ok => Some(Some(value)),
            _ => None,
        },
    }
}

// The same of a delete.
fn delete_after(standing: Option<Value>, answer: &Answer) -> Option<Option<Value>>
    ensures { result ≡ delete_after standing answer.now }
{
    match standing {
        None => match answer {
            Answer::Missing => Some(None),
            _ => None,
        },
        Some(_) => match answer {
            Answer::Ok => Some(None),
            _ => None,
        },
    }
}

// The same of a get.
fn get_after(standing: Option<Value>, answer: &Answer) -> Option<Option<Value>>
    ensures { result ≡ get_after standing answer.now }
{
    match standing {
        None => match answer {
            Answer::Missing => Some(None),
            _ => None,
        },
        Some(found) => match answer {
            Answer::Got { value } => {
                if found.bytes() == value.bytes() {
                    Some(Some(found))
                } else {
                    None
                }
            }
            _ => None,
        },
    }
}

// The same of any call.
fn value_after(standing: Option<Value>, call: &Call, answer: &Answer) -> Option<Option<Value>>
    ensures { result ≡ value_after standing call.now answer.now }
{
    match call {
        Call::Insert { value, .. } => insert_after(*value, standing, answer),
        Call::Update { value, .. } => update_after(*value, standing, answer),
        Call::Delete { .. } => delete_after(standing, answer),
        Call::Get { .. } => get_after(standing, answer),
    }
}

// The key that a call is on.
fn key_of(call: &Call) -> u64
    ensures { result ≡ call_key call.now }
{
    match call {
        Call::Insert { key, .. } => *key,
        Call::Update { key, .. } => *key,
        Call::Delete { key } => *key,
        Call::Get { key } => *key,
    }
}

// The map with this at the key.
fn put(map: &mut BTreeMap<u64, Value>, key: u64, value: Option<Value>) -> Result<(), AllocError>
    ensures { OnOk result ((k : ℕ) → value_at map.new.entries k ≡ (if k == key then value else value_at map.old.entries k)) }
{
    match value {
        Some(value) => {
            let _ = map.insert(key, value)?;
        }
        None => {
            let _ = map.remove(&key);
        }
    }
    Ok(())
}

// Makes the call on the map, and answers whether it gets this answer there. Where it doesn't, the map stays.
fn apply(map: &mut BTreeMap<u64, Value>, call: &Call, answer: &Answer) -> Result<bool, AllocError>
    ensures { IfOk result (λ agrees. Follows (λ m. call_made m (call.now, answer.now)) map.old.entries map.new.entries agrees) }
{
    let key = key_of(call);
    let standing = map.get(&key).copied();
    match value_after(standing, call, answer) {
        Some(value) => {
            put(map, key, value)?;
            Ok(true)
        }
        None => Ok(false),
    }
}

// Makes the call of the record, where it is one of `txn` that was answered.
fn replay_record(
    map: &mut BTreeMap<u64, Value>,
    logged: &Record,
    txn: u64,
) -> Result<bool, AllocError>
    ensures { IfOk result (λ agrees. Follows (λ m. calls_made m (calls_of txn (logged.now ∷ []))) map.old.entries map.new.entries agrees) }
{
    match logged {
        Record::Done {
            txn: owner,
            call,
            answer,
        } => {
            if *owner == txn {
                return apply(map, call, answer);
            }
            Ok(true)
        }
        _ => Ok(true),
    }
}

// Makes all answered calls of `txn`, in order, up to one that doesn't get its answer.
fn replay_txn(map: &mut BTreeMap<u64, Value>, log: &[Record], txn: u64) -> Result<bool, AllocError>
    ensures { IfOk result (λ agrees. Follows (λ m. calls_made m (calls_of txn log.now)) map.old.entries map.new.entries agrees) }
{
    for record in log {
        if !replay_record(map, record, txn)? {
            return Ok(false);
        }
    }
    Ok(true)
}

// The same of the transaction that the record commits, unless it is deleted.
fn replay_commit(
    map: &mut BTreeMap<u64, Value>,
    log: &[Record],
    deleted: &[u64],
    logged: &Record,
) -> Result<bool, AllocError>
    ensures { IfOk result (λ agrees. Follows (λ m. serial_made m (survive_among deleted.now (committed (logged.now ∷ []))) log.now) map.old.entries map.new.entries agrees) }
{
    match logged {
        Record::Commit { txn } => {
            if deleted.contains(txn) {
                return Ok(true);
            }
            replay_txn(map, log, *txn)
        }
        _ => Ok(true),
    }
}

/// Makes the answered calls of the committed transactions that aren't deleted, one transaction after another, up to a call that doesn't get
/// its answer, and answers whether all did. It takes memory for the map.
pub fn replay_all(
    map: &mut BTreeMap<u64, Value>,
    log: &[Record],
    deleted: &[u64],
) -> Result<bool, AllocError>
    ensures { IfOk result (λ agrees. Follows (λ m. serial_made m (survive_among deleted.now (committed log.now)) log.now) map.old.entries map.new.entries agrees) }
{
    for record in log {
        if !replay_commit(map, log, deleted, record)? {
            return Ok(false);
        }
    }
    Ok(true)
}
