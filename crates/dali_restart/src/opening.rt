//! What a restart reads before the first record behind the current image.
ghost use Rattle.std.specs.Prelude.{◌≡◌, ◌≤◌, ◌<◌, ◌^◌, ◌⊎◌, ℕ, None, length, IfOk, IfErr, OnOk, IfSome, IsErrOf};
ghost use Rattle.dali_geometry.specs.Places.{regions as regions_of};
ghost use Rattle.dali_record.specs.declared.records.Record.TheVariants.{Format};
ghost use Rattle.dali_record.specs.Spelling.{CanBeSpelled};
ghost use Rattle.dali_store.specs.declared.store.FileName.{FileName as Name};
ghost use Rattle.dali_store.specs.Calls.{PassesFewer};
ghost use Rattle.dali_store.specs.Faults.{Rose, HasCause};
ghost use Rattle.dali_store.specs.Store.{Only, file_of};
ghost use Rattle.dali_log.specs.Batch.{IsUnformatted};
ghost use Rattle.dali_log.specs.Reads.{OnlyReads, ReadsOrFails};
ghost use Rattle.dali_log.specs.Stream.{IsWindow};
ghost use Rattle.dali_crash.specs.Checkpoints;
ghost use Rattle.dali_crash.specs.Disks.Disks.{image_name};
ghost use Rattle.dali_log.specs.Anchors.{IsAnchor};
ghost use Rattle.dali_image.specs.Headers.{HasHeading, bad_header, IsWanted};
ghost use Rattle.dali_image.specs.Laws.{IsHeader};
ghost use Rattle.dali_image.specs.Reading.{ReadsRegions, end_of};
ghost use Rattle.dali_image.specs.declared.error.ImageError.TheVariants as images;
ghost use Rattle.dali_restart.specs.declared.error.RestartError.TheVariants as errors;
ghost use Rattle.dali_restart.specs.Opening.{BeginsWith, IsNoImage, BadImageAt, IsImageIn, IsInRange, IsBadLog, IsBadAnchor, IsBadImage, IsFoundIn, IsOpened, IsBadStore};

use crate::error::RestartError;
use crate::regions;
use dali_att::Att;
use dali_geometry::Geometry;
use dali_image::{Expected, Header, ImageError, read_header, read_regions, read_table};
use dali_log::LogReader;
use dali_record::Pending;
use dali_region::Side;
use dali_store::{FileName, Store, StoreFault};
use std::alloc::{AllocError, Global};

/// What a restart knows before it reads the first record behind the current image.
#[derive(Drop)]
pub struct Opened {
    /// The sizes in the log's first record.
    pub geometry: Geometry,
    /// The number of the current image, 0 where there is none.
    pub current: u64,
    /// Its header. Where there is none the formatted regions count as the image, with the place behind the first batch.
    pub header: Header,
    /// The words of each region in it.
    pub regions: Vec<[u64; 64]>,
    /// The transactions that had begun and not ended there, with their undos.
    pub table: Att<Pending>,
    /// The log from the image's place on, of which no record was read.
    pub reader: LogReader,
}

// After Ok a crash leaves just what reads give.
fn sync_all<V: Store>(store: &mut V) -> Result<(), StoreFault>
    ensures reads { OnlyReads V.told V.moment V.left_since V.may_leave store.old store.new }
    ensures durable { OnOk result (IfSome (V.told store.old) (λ fs. Only fs (V.may_leave store.new))) }
    ensures cause { HasCause (V.faults store.old) (V.faults store.new) result }
    ensures passes { PassesFewer (V.lets_pass store.old) (V.lets_pass store.new) }
{
    store.sync(FileName::Log)?;
    store.sync(FileName::ImageA)?;
    store.sync(FileName::ImageB)?;
    store.sync(FileName::Anchor)
}

// The geometry that a Format names.
fn geometry_of(index: u32, heap: u32) -> Geometry
    requires { CanBeSpelled (Format index heap) }
    ensures { result ≡ record { index = index; heap = heap } }
{
    match Geometry::new(index, heap) {
        Ok(geometry) => geometry,
        Err(_) => unreachable!(),
    }
}

// The side of the image with this number.
fn side_of(number: u64) -> Side
    ensures { result ≡ Checkpoints.side_of number }
{
    if number % 2 == 1 { Side::A } else { Side::B }
}

// An image: its header, the words of its regions, and its table.
#[derive(Drop)]
struct Image {
    header: Header,
    regions: Vec<[u64; 64]>,
    table: Att<Pending>,
}

// What stands for the image before the first checkpoint.
fn first_image(alloc: Global, geometry: Geometry) -> Result<Image, AllocError>
    ensures { IfOk result (λ image. IsNoImage geometry image.header image.regions.items image.table) }
{
    let regions = regions::formatted_words(alloc, &geometry)?;
    let header = Header {
        geometry,
        number: 0,
        place: 15,
        first: 1,
        weight: 10,
        next: 1,
        table: 4,
    };
    Ok(Image {
        header,
        regions,
        table: Att::new(alloc),
    })
}

// The words of all regions in an image.
fn read_words<V: Store>(
    alloc: Global,
    store: &mut V,
    side: Side,
    geometry: &Geometry,
) -> Result<Vec<[u64; 64]>, ImageError>
    ensures whole { IfOk result (λ words. length words.items ≡ regions_of geometry.now) }
    ensures ok { IfOk result (λ words. IfSome (V.told store.old) (λ fs. ReadsRegions (file_of (image_name side) fs) 0 words.items)) }
    ensures bad { IfErr result (λ e. (file : Name) (at : ℕ) → e ≡ images.BadImage file at →
        (file ≡ image_name side) × (at ≡ 56) × IfSome (V.told store.old) (λ fs. length (file_of (image_name side) fs) < end_of 0 (regions_of geometry.now))) }
    ensures store { ReadsOrFails V.Store (IsErrOf result images.Fault) store.old store.new }
{
    let mut words = vec![in alloc; [0; 64]; geometry.regions() as usize]?;
    match read_regions(alloc, store, side, 0, &mut words) {
        Ok(()) => Ok(words),
        Err(error) => Err(error),
    }
}

// The header of an image, which is as the log and the anchor want it.
fn read_checked<V: Store>(
    store: &mut V,
    side: Side,
    expected: &Expected,
) -> Result<Header, ImageError>
    ensures good { IfOk result (λ header. bad_header header expected.now ≡ None) }
    ensures wanted { IfOk result (λ header. IsWanted header expected.now) }
    ensures fits { IfOk result (λ header. IsHeader header) }
    ensures ok { IfOk result (λ header. IfSome (V.told store.old) (λ fs. HasHeading (file_of (image_name side) fs) header)) }
    ensures bad { IfErr result (λ e. (file : Name) (at : ℕ) → e ≡ images.BadImage file at →
        (file ≡ image_name side) × IfSome (V.told store.old) (λ fs. BadImageAt (file_of (image_name side) fs) expected.now at)) }
    ensures store { ReadsOrFails V.Store (IsErrOf result images.Fault) store.old store.new }
{
    match read_header(store, side) {
        Ok(header) => match header.check(side, expected) {
            Ok(()) => Ok(header),
            Err(error) => Err(error),
        },
        Err(error) => Err(error),
    }
}

// An image whose header is as the log and the anchor want it.
fn read_image<V: Store>(
    alloc: Global,
    store: &mut V,
    side: Side,
    expected: &Expected,
) -> Result<Image, ImageError>
    ensures ok { IfOk result (λ image. IfSome (V.told store.old) (λ fs. IsImageIn (file_of (image_name side) fs) expected.now image.header image.regions.items image.table)) }
    ensures in_range { IfOk result (λ image. IsInRange expected.now.geometry image.header image.regions.items image.table) }
    ensures bad { IfErr result (λ e. (file : Name) (at : ℕ) → e ≡ images.BadImage file at →
        (file ≡ image_name side) × IfSome (V.told store.old) (λ fs. BadImageAt (file_of (image_name side) fs) expected.now at)) }
    ensures store { ReadsOrFails V.Store (IsErrOf result images.Fault) store.old store.new }
{
    let header = match read_checked(store, side, expected) {
        Ok(header) => header,
        Err(error) => return Err(error),
    };
    let table = match read_table(alloc, store, side, &header) {
        Ok(table) => table,
        Err(error) => return Err(error),
    };
    match read_words(alloc, store, side, &header.geometry) {
        Ok(regions) => Ok(Image {
            header,
            regions,
            table,
        }),
        Err(error) => Err(error),
    }
}

// The image with this number, or what stands for it before the first checkpoint.
fn current_image<V: Store>(
    alloc: Global,
    store: &mut V,
    geometry: Geometry,
    current: u64,
) -> Result<Image, RestartError>
    ensures ok { IfOk result (λ image. IfSome (V.told store.old) (λ fs. IsFoundIn fs geometry current image.header image.regions.items image.table)) }
    ensures in_range { IfOk result (λ image. IsInRange geometry image.header image.regions.items image.table) }
    ensures bad { IfErr result (λ e. (file : Name) (at : ℕ) → e ≡ errors.BadStore file at → IfSome (V.told store.old) (λ fs. IsBadImage fs geometry current file at)) }
    ensures formatted { IsErrOf result errors.Formatted → ⊥ }
    ensures long { IsErrOf result errors.TooLong → ⊥ }
    ensures steady { IsErrOf result errors.Unsteady → ⊥ }
    ensures unformatted { IsErrOf result errors.Unformatted → ⊥ }
    ensures store { ReadsOrFails V.Store (IsErrOf result errors.Fault) store.old store.new }
{
    if current == 0 {
        return match first_image(alloc, geometry) {
            Ok(image) => Ok(image),
            Err(_) => Err(RestartError::OutOfMemory),
        };
    }
    let log = match store.length(FileName::Log) {
        Ok(log) => log,
        Err(StoreFault) => return Err(RestartError::Fault),
    };
    let expected = Expected {
        geometry,
        number: current,
        log,
    };
    match read_image(alloc, store, side_of(current), &expected) {
        Ok(image) => Ok(image),
        Err(error) => Err(error.into()),
    }
}

// The first batch of the log, and the number of the current image.
fn read_first<V: Store>(
    alloc: Global,
    store: &mut V,
) -> Result<(LogReader, Geometry, u64), RestartError>
    ensures log { IfOk result (λ first. IfSome (V.told store.old) (λ fs. BeginsWith fs first.1 × IsWindow fs.log first.0)) }
    ensures anchor { IfOk result (λ first. IfSome (V.told store.old) (λ fs. IsAnchor fs.anchor first.2)) }
    ensures small { IfOk result (λ first. first.2 < 2 ^ 62) }
    ensures bad { IfErr result (λ e. (file : Name) (at : ℕ) → e ≡ errors.BadStore file at → IfSome (V.told store.old) (λ fs. IsBadLog fs file at ⊎ IsBadAnchor fs file at)) }
    ensures formatted { IsErrOf result errors.Formatted → ⊥ }
    ensures long { IsErrOf result errors.TooLong → ⊥ }
    ensures steady { IsErrOf result errors.Unsteady → ⊥ }
    ensures unformatted { IsErrOf result errors.Unformatted → IfSome (V.told store.old) (λ fs. IsUnformatted fs.log) }
    ensures store { ReadsOrFails V.Store (IsErrOf result errors.Fault) store.old store.new }
{
    let (reader, (index, heap)) = match LogReader::open(alloc, store) {
        Ok(opened) => opened,
        Err(error) => return Err(error.into()),
    };
    let geometry = geometry_of(index, heap);
    match dali_image::current(alloc, store) {
        Ok(current) => Ok((reader, geometry, current)),
        Err(error) => Err(error.into()),
    }
}

/// What stands in the files of a store before the first record behind the current image. It is the sizes in the log's
/// first record, the number of the current image, the image with its table, and a reader that goes on at its place. All
/// files are synced first. No byte of the log between the first batch and the image's place is read.
///
/// `Unformatted` exactly where the log has fewer than two bytes or its first gate is closed. `BadStore` exactly where the
/// files are bad, at the first place that is: in the log's first batch, else in the anchor, else in the current image.
/// `Fault` exactly where the store's count of faults rose. What is found is in range, whatever the store tells. It takes
/// memory for the image, twice as much while it is read.
pub fn open<V: Store>(alloc: Global, store: &mut V) -> Result<Opened, RestartError>
    ensures opened { IfOk result (λ o. IfSome (V.told store.old) (λ fs. IsOpened fs o.geometry o.current o.header o.regions.items o.table o.reader)) }
    ensures in_range { IfOk result (λ o. IsInRange o.geometry o.header o.regions.items o.table) }
    ensures small { IfOk result (λ o. o.current < 2 ^ 62) }
    ensures durable { OnOk result (IfSome (V.told store.old) (λ fs. Only fs (V.may_leave store.new))) }
    ensures bad { IfErr result (λ e. (file : Name) (at : ℕ) → e ≡ errors.BadStore file at → IfSome (V.told store.old) (λ fs. IsBadStore fs file at)) }
    ensures unformatted { IsErrOf result errors.Unformatted → IfSome (V.told store.old) (λ fs. IsUnformatted fs.log) }
    ensures formatted { IsErrOf result errors.Formatted → ⊥ }
    ensures long { IsErrOf result errors.TooLong → ⊥ }
    ensures steady { IsErrOf result errors.Unsteady → ⊥ }
    ensures reads { OnlyReads V.told V.moment V.left_since V.may_leave store.old store.new }
    ensures later { V.faults store.old ≤ V.faults store.new }
    ensures fault { IsErrOf result errors.Fault → Rose (V.faults store.old) (V.faults store.new) }
    ensures kept { (IsErrOf result errors.Fault → ⊥) → V.faults store.new ≡ V.faults store.old }
    ensures passes { PassesFewer (V.lets_pass store.old) (V.lets_pass store.new) }
{
    if sync_all(store).is_err() {
        return Err(RestartError::Fault);
    }
    let (mut reader, geometry, current) = match read_first(alloc, store) {
        Ok(first) => first,
        Err(error) => return Err(error),
    };
    let image = match current_image(alloc, store, geometry, current) {
        Ok(image) => image,
        Err(error) => return Err(error),
    };
    match reader.seek(image.header.place) {
        Ok(()) => {}
        Err(error) => return Err(error.into()),
    }
    Ok(Opened {
        geometry,
        current,
        header: image.header,
        regions: image.regions,
        table: image.table,
        reader,
    })
}
