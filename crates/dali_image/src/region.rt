//! The words of regions.
ghost use Rattle.std.specs.Prelude.{◌≡◌, ◌≤◌, ◌+◌, ◌*◌, ◌++◌, length, flat_map, vec_len, vec_capacity, IsOk, OnOk, OnErr};
ghost use Rattle.dali_record.specs.Spelling.{words_bytes};

use byteorder::{BigEndian, ByteOrder};
use dali_bytes::{OutOfMemory, put};

/// How many bytes a region has.
pub(crate) const SIZE: usize = 512;

/// The bytes of a region's words. It takes no memory.
pub fn region_bytes(words: &[u64; 64]) -> [u8; 512]
    ensures { result ≡ words_bytes words.now }
{
    let mut bytes = [0; SIZE];
    BigEndian::write_u64_into(words, &mut bytes);
    bytes
}

/// Appends the bytes of these regions' words, one region after another. Unchanged where memory is refused; none is
/// wanted where there is room.
pub fn regions_bytes(regions: &[[u64; 64]], into: &mut Vec<u8>) -> Result<(), OutOfMemory>
    ensures ok { OnOk result (into.new.items ≡ into.old.items ++ flat_map words_bytes regions.now) }
    ensures err { OnErr result (into.new.items ≡ into.old.items) }
    ensures room { vec_len into.old + 512 * length regions.now ≤ vec_capacity into.old → IsOk result }
    ensures capacity { vec_capacity into.old ≤ vec_capacity into.new }
{
    into.reserve(regions.len() * SIZE)?;
    for words in regions {
        put(into, &region_bytes(words)).unwrap();
    }
    Ok(())
}
