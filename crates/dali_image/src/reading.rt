//! Reading an image file.
ghost use Rattle.std.specs.Prelude.{◌≡◌, ◌≤◌, ◌<◌, ◌+◌, ◌^◌, ◌∷◌, [], ℕ, List, ◌*◌, length, take, drop, flat_map, IfOk, OnOk, IfErr, IsErrOf, IfSome};
ghost use Rattle.dali_store.specs.declared.store.FileName.{FileName};
ghost use Rattle.dali_store.specs.Calls.{MakesAtMost};
ghost use Rattle.dali_store.specs.Store.{file_of};
ghost use Rattle.dali_log.specs.Reads.{ReadsOrFails};
ghost use Rattle.dali_crash.specs.Disks.Disks.{image_name};
ghost use Rattle.dali_crash.specs.Disks.Places;
ghost use Rattle.dali_record.specs.Spelling.{words_bytes};
ghost use Rattle.dali_image.specs.Headers.{HasHeading, NoHeading};
ghost use Rattle.dali_att.specs.Table.{undos_at};
ghost use Rattle.dali_image.specs.Laws.{IsHeader};
ghost use Rattle.dali_image.specs.Reading.{ReadsRegions, end_of, ReadsTable, NoTable};
ghost use Rattle.dali_image.specs.Rows.{AreUndos};

use crate::error::TableError;
use crate::header::{self, Header};
use crate::parts::{fill, image_of};
use crate::{ImageError, decoding, region};
use byteorder::{BigEndian, ByteOrder};
use dali_att::Att;
use dali_record::Pending;
use dali_region::Side;
use dali_store::Store;
use std::alloc::Global;

// The place of the header's last field, which says how long the table is.
const TABLE_FIELD: u64 = 56;

/// What the header of this side's image says; `Header::check` tests it as that of the current image. `BadImage` of its
/// file exactly where no header stands there: at 0 where the file is shorter than 64 bytes or begins otherwise, at 8
/// where no database has its sizes. Its numbers fit their fields, whatever the store tells. `Fault` exactly where the
/// store's count of faults rose. It takes no memory.
pub fn read_header<V: Store>(store: &mut V, side: Side) -> Result<Header, ImageError>
    ensures ok { IfOk result (λ header. IfSome (V.told store.old) (λ fs. HasHeading (file_of (image_name side) fs) header)) }
    ensures bad { IfErr result (λ e. (file : FileName) (at : ℕ) → e ≡ ImageError.BadImage file at →
        (file ≡ image_name side) × IfSome (V.told store.old) (λ fs. NoHeading (file_of (image_name side) fs) at)) }
    ensures fits { IfOk result (λ header. IsHeader header) }
    ensures room { IsErrOf result ImageError.OutOfMemory → ⊥ }
    ensures store { ReadsOrFails V.Store (IsErrOf result ImageError.Fault) store.old store.new }
    ensures most { MakesAtMost 1 (V.lets_pass store.old) (V.lets_pass store.new) }
{
    let file = image_of(side);
    let mut bytes = [0; header::SIZE];
    if !fill(store, file, 0, &mut bytes)? {
        return Err(ImageError::BadImage { file, at: 0 });
    }
    match header::decode(&bytes) {
        Ok(header) => Ok(header),
        Err(bad) => Err(ImageError::BadImage {
            file,
            at: bad.at as u64,
        }),
    }
}

// Where a region's words stand in the file.
fn place_of(region: u32) -> u64
    ensures { result ≡ Places.place_of region }
{
    64 + 512 * u64::from(region)
}

// The words of regions that these bytes spell, one region after another.
fn words_of(bytes: &[u8], into: &mut [[u64; 64]])
    requires { length bytes.now ≡ 512 * length into.old }
    ensures { bytes.now ≡ flat_map words_bytes into.new }
{
    for region in 0..into.len() {
        let start = region * region::SIZE;
        BigEndian::read_u64_into(&bytes[start..start + region::SIZE], &mut into[region]);
    }
}

/// The words of so many regions as there is place for, from region `from` on, in one read. `BadImage` of the image's
/// file, at 56, exactly where it ends before the last of them does. `Fault` exactly where the store's count of faults
/// rose. It takes memory for their bytes, 512 for each. After an error nothing is said of the words.
pub fn read_regions<V: Store>(
    alloc: Global,
    store: &mut V,
    side: Side,
    from: u32,
    into: &mut [[u64; 64]],
) -> Result<(), ImageError>
    requires some { 0 < length into.old }
    ensures ok { OnOk result (IfSome (V.told store.old) (λ fs. ReadsRegions (file_of (image_name side) fs) from into.new)) }
    ensures bad { IfErr result (λ e. (file : FileName) (at : ℕ) → e ≡ ImageError.BadImage file at →
        (file ≡ image_name side) × (at ≡ 56) × IfSome (V.told store.old) (λ fs. length (file_of (image_name side) fs) < end_of from (length into.old))) }
    ensures store { ReadsOrFails V.Store (IsErrOf result ImageError.Fault) store.old store.new }
    ensures most { MakesAtMost 1 (V.lets_pass store.old) (V.lets_pass store.new) }
{
    let file = image_of(side);
    let mut bytes = vec![in alloc; 0; into.len() * region::SIZE]?;
    if !fill(store, file, place_of(from), &mut bytes)? {
        return Err(ImageError::BadImage {
            file,
            at: TABLE_FIELD,
        });
    }
    words_of(&bytes, into);
    Ok(())
}

/// The words of one region, as `read_regions` reads them.
pub fn read_region<V: Store>(
    alloc: Global,
    store: &mut V,
    side: Side,
    region: u32,
) -> Result<[u64; 64], ImageError>
    ensures ok { IfOk result (λ words. IfSome (V.told store.old) (λ fs. ReadsRegions (file_of (image_name side) fs) region (words ∷ []))) }
    ensures bad { IfErr result (λ e. (file : FileName) (at : ℕ) → e ≡ ImageError.BadImage file at →
        (file ≡ image_name side) × (at ≡ 56) × IfSome (V.told store.old) (λ fs. length (file_of (image_name side) fs) < end_of region 1)) }
    ensures store { ReadsOrFails V.Store (IsErrOf result ImageError.Fault) store.old store.new }
    ensures most { MakesAtMost 1 (V.lets_pass store.old) (V.lets_pass store.new) }
{
    let mut words = [[0; 64]; 1];
    read_regions(alloc, store, side, region, &mut words)?;
    Ok(words[0])
}

/// The table of this side's image, whose header this is. `BadImage` of its file exactly where there is none. It is at 56
/// where the file is shorter than its header says, else at the first field of the table that is wrong, or behind its last
/// field where bytes are left over. A region of the wrong kind is bad at the region, which is so once the undo's kind is
/// known. Its undos have cells, entries and words in range (`AreUndos`), whatever the store tells. `Fault` exactly where
/// the store's count of faults rose. It takes memory for the bytes and the table.
pub fn read_table<V: Store>(
    alloc: Global,
    store: &mut V,
    side: Side,
    header: &Header,
) -> Result<Att<Pending>, ImageError>
    ensures ok { IfOk result (λ att. IfSome (V.told store.old) (λ fs. ReadsTable (file_of (image_name side) fs) header.now att)) }
    ensures undos { IfOk result (λ att. (t : ℕ) → AreUndos (undos_at att t)) }
    ensures bad { IfErr result (λ e. (file : FileName) (at : ℕ) → e ≡ ImageError.BadImage file at →
        (file ≡ image_name side) × IfSome (V.told store.old) (λ fs. NoTable (file_of (image_name side) fs) header.now at)) }
    ensures store { ReadsOrFails V.Store (IsErrOf result ImageError.Fault) store.old store.new }
    ensures most { MakesAtMost 2 (V.lets_pass store.old) (V.lets_pass store.new) }
{
    let file = image_of(side);
    let place = place_of(header.geometry.regions());
    let bytes = part(alloc, store, side, place, header.table)?;
    match decoding::decode(alloc, &bytes, &header.geometry, header.next) {
        Ok(att) => Ok(att),
        Err(TableError::OutOfMemory) => Err(ImageError::OutOfMemory),
        Err(TableError::Bad { at }) => Err(ImageError::BadImage {
            file,
            at: place + at as u64,
        }),
    }
}

// So many bytes of the file from a place on. `BadImage` at 56 exactly where it has fewer.
fn part<V: Store>(
    alloc: Global,
    store: &mut V,
    side: Side,
    place: u64,
    size: u64,
) -> Result<Vec<u8>, ImageError>
    requires { place < 2 ^ 62 }
    ensures ok { IfOk result (λ bytes. IfSome (V.told store.old) (λ fs.
        (place + size ≤ length (file_of (image_name side) fs)) × (bytes.items ≡ take size (drop place (file_of (image_name side) fs))))) }
    ensures small { IfOk result (λ bytes. place + length bytes.items < 2 ^ 62) }
    ensures bad { IfErr result (λ e. (file : FileName) (at : ℕ) → e ≡ ImageError.BadImage file at →
        (file ≡ image_name side) × (at ≡ 56) × IfSome (V.told store.old) (λ fs. length (file_of (image_name side) fs) < place + size)) }
    ensures store { ReadsOrFails V.Store (IsErrOf result ImageError.Fault) store.old store.new }
    ensures most { MakesAtMost 2 (V.lets_pass store.old) (V.lets_pass store.new) }
{
    let file = image_of(side);
    let length = store.length(file)?;
    if length < place || length - place < size {
        return Err(ImageError::BadImage {
            file,
            at: TABLE_FIELD,
        });
    }
    let mut bytes = vec![in alloc; 0; size as usize]?;
    if size == 0 {
        return Ok(bytes);
    }
    if !fill(store, file, place, &mut bytes)? {
        return Err(ImageError::BadImage {
            file,
            at: TABLE_FIELD,
        });
    }
    Ok(bytes)
}
