ghost use Rattle.std.specs.Prelude.{◌≡◌, ◌≤◌, ◌+◌, ◌++◌, [], ◌∷◌, length, vec_len, vec_capacity, OnOk, OnErr, IsOk};
ghost use Rattle.dali_bytes.specs.Fields.{number32, number64};

use crate::OutOfMemory;
use byteorder::{BigEndian, ByteOrder};

/// Appends one byte. Unchanged where memory is refused; none is wanted where there is room.
pub fn put_byte(into: &mut Vec<u8>, value: u8) -> Result<(), OutOfMemory>
    ensures ok { OnOk result (into.new.items ≡ into.old.items ++ value ∷ []) }
    ensures err { OnErr result (into.new.items ≡ into.old.items) }
    ensures room { vec_len into.old + 1 ≤ vec_capacity into.old → IsOk result }
    ensures capacity { vec_capacity into.old ≤ vec_capacity into.new }
{
    into.push(value)?;
    Ok(())
}

/// Appends a number as four bytes. Unchanged where memory is refused; none is wanted where there
/// is room.
#[tactic(auto, unfolding(crate::specs::Fields::number32))]
pub fn put32(into: &mut Vec<u8>, value: u32) -> Result<(), OutOfMemory>
    ensures ok { OnOk result (into.new.items ≡ into.old.items ++ number32 value) }
    ensures err { OnErr result (into.new.items ≡ into.old.items) }
    ensures room { vec_len into.old + 4 ≤ vec_capacity into.old → IsOk result }
    ensures capacity { vec_capacity into.old ≤ vec_capacity into.new }
{
    let mut bytes = [0; 4];
    BigEndian::write_u32(&mut bytes, value);
    put(into, &bytes)
}

/// Appends a number as eight bytes. Unchanged where memory is refused; none is wanted where there
/// is room.
#[tactic(auto, unfolding(crate::specs::Fields::number64))]
pub fn put64(into: &mut Vec<u8>, value: u64) -> Result<(), OutOfMemory>
    ensures ok { OnOk result (into.new.items ≡ into.old.items ++ number64 value) }
    ensures err { OnErr result (into.new.items ≡ into.old.items) }
    ensures room { vec_len into.old + 8 ≤ vec_capacity into.old → IsOk result }
    ensures capacity { vec_capacity into.old ≤ vec_capacity into.new }
{
    let mut bytes = [0; 8];
    BigEndian::write_u64(&mut bytes, value);
    put(into, &bytes)
}

/// Appends bytes. Unchanged where memory is refused; none is wanted where there is room.
pub fn put(into: &mut Vec<u8>, bytes: &[u8]) -> Result<(), OutOfMemory>
    ensures ok { OnOk result (into.new.items ≡ into.old.items ++ bytes.now) }
    ensures err { OnErr result (into.new.items ≡ into.old.items) }
    ensures room { vec_len into.old + length bytes.now ≤ vec_capacity into.old → IsOk result }
    ensures capacity { vec_capacity into.old ≤ vec_capacity into.new }
{
    into.extend_from_slice(bytes)?;
    Ok(())
}
