//! An image file is written whole.
ghost use Rattle.std.specs.Prelude.{◌≡◌, ◌⊎◌, ◌<◌, ◌≤◌, ◌+◌, ◌*◌, ◌^◌, min, length, flat_map, vec_capacity, IfErr, IfOk, OnOk, IfSome, IsErrOf};
ghost use Rattle.dali_geometry.specs.Places.{regions as regions_of};
ghost use Rattle.dali_record.specs.Spelling.{words_bytes};
ghost use Rattle.dali_store.specs.Calls.{fewer, one_less, PassesFewer, MakesAtMost};
ghost use Rattle.dali_store.specs.Faults.{Rose, HasCause};
ghost use Rattle.dali_store.specs.Store.{Files, file_of, HoldsIn};
ghost use Rattle.dali_crash.specs.Disks.Disks.{CanBeImage, IsImageOf, image_file, image_name};
ghost use Rattle.dali_crash.specs.Disks.Places.{place_of};
ghost use Rattle.dali_restart.specs.Renewal.Written.{WritesOnly, new_image, head_in, pieces, image_calls};
ghost use Rattle.dali_restart.specs.declared.renewal.error.RenewalError.TheVariants as errors;

use crate::renewal::error::RenewalError;
use dali_image::{Header, header_bytes, regions_bytes};
use dali_region::Side;
use dali_store::{FileName, Store, StoreFault};
use std::alloc::Global;

// How many regions are written at once: 64 KiB.
const PIECE: usize = 128;

// How many bytes the words of a region have.
const REGION: usize = 512;

// A table without a row: the number of its rows.
const NO_ROWS: [u8; 4] = [0; 4];

// The file of a side's image.
pub(crate) fn name_of(side: Side) -> FileName
    ensures { result ≡ image_name side }
{
    match side {
        Side::A => FileName::ImageA,
        Side::B => FileName::ImageB,
    }
}

// Writes to a file, within it or at its end.
fn write<V: Store>(store: &mut V, file: FileName, at: u64, bytes: &[u8]) -> Result<(), StoreFault>
    requires { IfSome (V.told store.old) (λ fs. at ≤ length (file_of file fs)) }
    ensures written { OnOk result (HoldsIn file at bytes.now (V.told store.old) (V.told store.new)) }
    ensures only { WritesOnly V.told V.may_leave V.moment V.left_since file store.old store.new }
    ensures cause { HasCause (V.faults store.old) (V.faults store.new) result }
    ensures calls { V.lets_pass store.new ≡ one_less (V.lets_pass store.old) }
{
    store.write_at(file, at, bytes)
}

// Keeps what was written to a file.
fn sync<V: Store>(store: &mut V, file: FileName) -> Result<(), StoreFault>
    ensures told { V.told store.new ≡ V.told store.old }
    ensures durable { OnOk result (IfSome (V.told store.old) (λ fs. (c : Files) → V.may_leave store.new c → file_of file c ≡ file_of file fs)) }
    ensures only { WritesOnly V.told V.may_leave V.moment V.left_since file store.old store.new }
    ensures cause { HasCause (V.faults store.old) (V.faults store.new) result }
    ensures calls { V.lets_pass store.new ≡ one_less (V.lets_pass store.old) }
{
    store.sync(file)
}

// Writes the words of these regions, for which the buffer has room, in their places from that of region `from` on.
fn write_piece<V: Store>(
    store: &mut V,
    file: FileName,
    from: usize,
    regions: &[[u64; 64]],
    buffer: &mut Vec<u8>,
) -> Result<(), StoreFault>
    requires few { from ≤ 2 ^ 32 }
    requires inside { IfSome (V.told store.old) (λ fs. place_of from ≤ length (file_of file fs)) }
    requires room { 512 * length regions.now ≤ vec_capacity buffer.old }
    ensures room { vec_capacity buffer.old ≤ vec_capacity buffer.new }
    ensures written { OnOk result (HoldsIn file (place_of from) (flat_map words_bytes regions.now) (V.told store.old) (V.told store.new)) }
    ensures only { WritesOnly V.told V.may_leave V.moment V.left_since file store.old store.new }
    ensures cause { HasCause (V.faults store.old) (V.faults store.new) result }
    ensures calls { V.lets_pass store.new ≡ one_less (V.lets_pass store.old) }
{
    buffer.clear();
    regions_bytes(regions, buffer).unwrap();
    write(store, file, 64 + 512 * from as u64, buffer)
}

// Writes the words of all regions in their places, one piece after another.
fn write_regions<V: Store>(
    store: &mut V,
    file: FileName,
    regions: &[[u64; 64]],
    buffer: &mut Vec<u8>,
) -> Result<(), StoreFault>
    requires few { length regions.now ≤ 2 ^ 32 }
    requires inside { IfSome (V.told store.old) (λ fs. 64 ≤ length (file_of file fs)) }
    requires room { 512 * min 128 (length regions.now) ≤ vec_capacity buffer.old }
    ensures written { OnOk result (HoldsIn file 64 (flat_map words_bytes regions.now) (V.told store.old) (V.told store.new)) }
    ensures only { WritesOnly V.told V.may_leave V.moment V.left_since file store.old store.new }
    ensures cause { HasCause (V.faults store.old) (V.faults store.new) result }
    ensures calls { OnOk result (V.lets_pass store.new ≡ fewer (pieces (length regions.now)) (V.lets_pass store.old)) }
    ensures most { MakesAtMost (pieces (length regions.now)) (V.lets_pass store.old) (V.lets_pass store.new) }
    ensures passes { PassesFewer (V.lets_pass store.old) (V.lets_pass store.new) }
{
    let count = (regions.len() + PIECE - 1) / PIECE;
    for number in 0..count {
        let from = number * PIECE;
        let until = (from + PIECE).min(regions.len());
        write_piece(store, file, from, &regions[from..until], buffer)?;
    }
    Ok(())
}

// Writes an image whole, and keeps it.
pub(crate) fn write_whole<V: Store>(
    store: &mut V,
    file: FileName,
    header: &Header,
    regions: &[[u64; 64]],
    buffer: &mut Vec<u8>,
) -> Result<(), StoreFault>
    requires few { length regions.now ≤ 2 ^ 32 }
    requires room { 512 * min 128 (length regions.now) ≤ vec_capacity buffer.old }
    ensures written { OnOk result (HoldsIn file 0 (new_image header.now regions.now) (V.told store.old) (V.told store.new)) }
    ensures durable { OnOk result (IfSome (V.told store.new) (λ fs. (c : Files) → V.may_leave store.new c → file_of file c ≡ file_of file fs)) }
    ensures only { WritesOnly V.told V.may_leave V.moment V.left_since file store.old store.new }
    ensures cause { HasCause (V.faults store.old) (V.faults store.new) result }
    ensures calls { OnOk result (V.lets_pass store.new ≡ fewer (image_calls (length regions.now)) (V.lets_pass store.old)) }
    ensures most { MakesAtMost (image_calls (length regions.now)) (V.lets_pass store.old) (V.lets_pass store.new) }
    ensures passes { PassesFewer (V.lets_pass store.old) (V.lets_pass store.new) }
{
    let header = Header {
        table: NO_ROWS.len() as u64,
        ..*header
    };
    write(store, file, 0, &header_bytes(&header))?;
    write_regions(store, file, regions, buffer)?;
    write(store, file, 64 + 512 * regions.len() as u64, &NO_ROWS)?;
    sync(store, file)
}

// Room for a piece of so many regions.
pub(crate) fn room_for(alloc: Global, regions: usize) -> Result<Vec<u8>, RenewalError>
    ensures room { IfOk result (λ buffer. 512 * min 128 regions ≤ vec_capacity buffer) }
    ensures wanting { IfErr result (λ e. e ≡ errors.OutOfMemory) }
{
    let buffer = Vec::with_capacity(alloc, REGION * PIECE.min(regions))?;
    Ok(buffer)
}

/// Writes an image whole to the file of this side, and syncs that file. It is this header, the words of the regions, 128 of
/// them in a write, and a table without a row, whatever length of a table the header says. On Ok each disk that a crash may
/// leave holds this image, where it fits its fields. A crash at any moment, also behind a fault, leaves a disk that might
/// have been left before, but for this file.
///
/// `OutOfMemory` where memory for one write is refused; then nothing is written. `Fault` exactly where the store's count of
/// faults rose. It takes the bytes of 128 regions at most, and gives them back.
pub fn write_image<V: Store>(
    alloc: Global,
    store: &mut V,
    side: Side,
    header: &Header,
    regions: &[[u64; 64]],
) -> Result<(), RenewalError>
    requires whole { length regions.now ≡ regions_of header.now.geometry }
    ensures written { OnOk result (HoldsIn (image_name side) 0 (new_image header.now regions.now) (V.told store.old) (V.told store.new)) }
    ensures image { OnOk result (IfSome (V.told store.old) (λ _. CanBeImage header.now.geometry (head_in header.now) regions.now → (c : Files) → V.may_leave store.new c →
        IsImageOf header.now.geometry (image_file side c) (head_in header.now) regions.now)) }
    ensures only { WritesOnly V.told V.may_leave V.moment V.left_since (image_name side) store.old store.new }
    ensures untouched { IsErrOf result errors.OutOfMemory → store.new ≡ store.old }
    ensures errors { IfErr result (λ e. (e ≡ errors.Fault) ⊎ (e ≡ errors.OutOfMemory)) }
    ensures fault { IsErrOf result errors.Fault → Rose (V.faults store.old) (V.faults store.new) }
    ensures later { V.faults store.old ≤ V.faults store.new }
    ensures kept { (IsErrOf result errors.Fault → ⊥) → V.faults store.new ≡ V.faults store.old }
    ensures calls { OnOk result (V.lets_pass store.new ≡ fewer (image_calls (length regions.now)) (V.lets_pass store.old)) }
    ensures most { MakesAtMost (image_calls (length regions.now)) (V.lets_pass store.old) (V.lets_pass store.new) }
    ensures passes { PassesFewer (V.lets_pass store.old) (V.lets_pass store.new) }
{
    let _count = header.geometry.regions();
    let mut buffer = match room_for(alloc, regions.len()) {
        Ok(buffer) => buffer,
        Err(error) => return Err(error),
    };
    match write_whole(store, name_of(side), header, regions, &mut buffer) {
        Ok(()) => Ok(()),
        Err(StoreFault) => Err(RenewalError::Fault),
    }
}
