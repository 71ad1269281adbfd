//! What a restart would find, from files that are only read.
ghost use Rattle.std.specs.Prelude.{◌≡◌, ℕ, length, IfOk, IfErr, IfSome, IsErrOf, OnOk};
ghost use Rattle.dali_geometry.specs.Places;
ghost use Rattle.dali_store.specs.declared.store.FileName.{FileName as Name};
ghost use Rattle.dali_store.specs.Calls.{MakesAtMost};
ghost use Rattle.dali_log.specs.Batch.{IsUnformatted};
ghost use Rattle.dali_log.specs.Reads.{ReadsOrFails};
ghost use Rattle.dali_crash.specs.Checkpoints;
ghost use Rattle.dali_crash.specs.Disks.Disks.{image_name};
ghost use Rattle.dali_memstore.specs.Memory.{files_of};
ghost use Rattle.dali_listing.specs.Listing.{in_memory, IsListing};
ghost use Rattle.dali_restart.specs.Restarting.{IsBadAnywhere};
ghost use Rattle.dali_inspect.specs.Counts;
ghost use Rattle.dali_inspect.specs.Inspected.{image_at, HasImage, IsInspected, IsTooLong};
ghost use Rattle.dali_inspect.specs.declared.error.InspectError.TheVariants as errors;

use crate::copying::copy;
use crate::counting;
use crate::error::InspectError;
use dali_bytes::OutOfMemory;
use dali_geometry::Geometry;
use dali_image::Header;
use dali_listing::{Listed, records};
use dali_memstore::MemoryStore;
use dali_region::Region;
use dali_restart::{Report, open, restart};
use dali_store::{FileName, Store};
use std::alloc::Global;

/// The bytes of records that the log of the copy may have, the most that a restart takes. A restart alone never fills them.
const LIMIT: u64 = 268_435_456;

/// The image that a restart begins with.
#[derive(Clone, Copy, PartialEq, Eq)]
pub struct Image {
    /// Its file.
    pub file: FileName,
    /// The number of the first record that it doesn't know, from 0.
    pub record_number: u64,
    /// The place in the log behind the records that it knows.
    pub place: u64,
}

/// What a restart finds in the files of a store.
#[derive(Drop)]
pub struct Inspection {
    /// The sizes of the database.
    pub geometry: Geometry,
    /// Index regions first, then heap regions: what the restart comes to.
    pub regions: Vec<Region>,
    /// Whom the restart rolls back, and whom it deletes.
    pub report: Report,
    /// The image that the restart begins with; none before the first one.
    pub image: Option<Image>,
    /// How many bytes the log's records have, with that of the restart where it logs one.
    pub end: u64,
}

impl Inspection {
    /// The records, ascending by key, and those of one key by value. It takes memory for them.
    pub fn records(&self, alloc: Global) -> Result<Vec<Listed>, OutOfMemory>
        requires { length self.now.regions.items ≡ Places.regions self.now.geometry }
        ensures { IfOk result (λ rows. IsListing self.now.geometry (in_memory self.now.regions.items) rows.items) }
    {
        records(alloc, &self.geometry, &self.regions)
    }

    /// How many cells of the heap regions are live, of seven in each.
    pub fn cells_in_use(&self) -> u64
        requires { length self.now.regions.items ≡ Places.regions self.now.geometry }
        ensures { result ≡ Counts.cells_in_use self.now.geometry (in_memory self.now.regions.items) }
    {
        counting::cells_in_use(&self.geometry, &self.regions)
    }

    /// How many entries of the index regions are live, of 21 in each.
    pub fn entries_in_use(&self) -> u64
        requires { length self.now.regions.items ≡ Places.regions self.now.geometry }
        ensures { result ≡ Counts.entries_in_use self.now.geometry (in_memory self.now.regions.items) }
    {
        counting::entries_in_use(&self.geometry, &self.regions)
    }
}

// The file of the image with this number.
fn file_of(number: u64) -> FileName
    ensures { result ≡ image_name (Checkpoints.side_of number) }
{
    if number % 2 == 1 {
        FileName::ImageA
    } else {
        FileName::ImageB
    }
}

// The image with this number and this header; none where the formatted regions stand for it.
fn image_at(current: u64, header: &Header) -> Option<Image>
    ensures { result ≡ image_at current header.now }
{
    if current == 0 {
        return None;
    }
    Some(Image {
        file: file_of(current),
        record_number: header.first,
        place: header.place,
    })
}

// The sizes, and the image that a restart begins with.
fn begin(alloc: Global, copied: &mut MemoryStore) -> Result<(Geometry, Option<Image>), InspectError>
    ensures image { IfOk result (λ begun. HasImage (files_of copied.old) begun.0 begun.1) }
    ensures bad { IfErr result (λ e. (file : Name) (at : ℕ) → e ≡ errors.BadStore file at → IsBadAnywhere (files_of copied.old) file at) }
    ensures unformatted { IfErr result (λ e. e ≡ errors.Unformatted → IsUnformatted (files_of copied.old).log) }
    ensures long { IfErr result (λ e. e ≡ errors.TooLong → ⊥) }
    ensures other { IfErr result (λ e. e ≡ errors.StoreFault → ⊥) }
    ensures same { files_of copied.new ≡ files_of copied.old }
{
    let opened = match open(alloc, copied) {
        Ok(opened) => opened,
        Err(error) => return Err(error.into()),
    };
    let image = image_at(opened.current, &opened.header);
    Ok((opened.geometry, image))
}

// What a restart over a copy comes to.
fn find(alloc: Global, copied: MemoryStore) -> Result<Inspection, InspectError>
    ensures inspected { IfOk result (λ i. IsInspected (files_of copied) i) }
    ensures whole { IfOk result (λ i. length i.regions.items ≡ Places.regions i.geometry) }
    ensures bad { IfErr result (λ e. (file : Name) (at : ℕ) → e ≡ errors.BadStore file at → IsBadAnywhere (files_of copied) file at) }
    ensures unformatted { IfErr result (λ e. e ≡ errors.Unformatted → IsUnformatted (files_of copied).log) }
    ensures none { OnOk result (IsUnformatted (files_of copied).log → ⊥) }
    ensures long { IfErr result (λ e. e ≡ errors.TooLong → IsTooLong (files_of copied)) }
    ensures other { IfErr result (λ e. e ≡ errors.StoreFault → ⊥) }
{
    let mut copied = copied;
    let (geometry, image) = match begin(alloc, &mut copied) {
        Ok(begun) => begun,
        Err(error) => return Err(error),
    };
    let (core, report) = match restart(alloc, copied, LIMIT) {
        Ok(made) => made,
        Err(refused) => return Err(refused.error.into()),
    };
    // each restart hands out as many as the sizes say
    if core.regions.len() != geometry.regions() as usize {
        return Err(InspectError::OutOfMemory);
    }
    let end = core.system.end();
    Ok(Inspection {
        geometry,
        regions: core.regions,
        report,
        image,
        end,
    })
}

/// What a restart would find in the files of a store: they are copied into memory, and restarted there. The store is only read, by
/// eight calls at most; nothing is logged, no image is written and no number is used up.
///
/// `StoreFault` exactly where the store's count of faults rose. `Unformatted` and `BadStore` exactly where a restart of these files
/// answers so: the log has fewer than two bytes or its first gate is closed; or the files are bad at this place. `TooLong` only
/// where the restart's record would have more than the 2^30 bytes of a batch. `OutOfMemory` where memory is refused. It takes
/// memory for all files, and what a restart takes.
pub fn inspect<V: Store>(alloc: Global, store: &mut V) -> Result<Inspection, InspectError>
    // What `restart` gives of these files.
    ensures inspected { IfOk result (λ i. IfSome (V.told store.old) (λ fs. IsInspected fs i)) }
    // So its methods may be called.
    ensures whole { IfOk result (λ i. length i.regions.items ≡ Places.regions i.geometry) }
    ensures bad { IfErr result (λ e. (file : Name) (at : ℕ) → e ≡ errors.BadStore file at →
        IfSome (V.told store.old) (λ fs. IsBadAnywhere fs file at)) }
    ensures unformatted { IfErr result (λ e. e ≡ errors.Unformatted →
        IfSome (V.told store.old) (λ fs. IsUnformatted fs.log)) }
    ensures none { OnOk result (IfSome (V.told store.old) (λ fs. IsUnformatted fs.log → ⊥)) }
    ensures long { IfErr result (λ e. e ≡ errors.TooLong → IfSome (V.told store.old) IsTooLong) }
    ensures store { ReadsOrFails V.Store
        (IsErrOf result errors.StoreFault) store.old store.new }
    ensures most { MakesAtMost 8 (V.lets_pass store.old) (V.lets_pass store.new) }
{
    match copy(alloc, store) {
        Ok(copied) => find(alloc, copied),
        Err(error) => Err(error),
    }
}
