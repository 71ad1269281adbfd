//! The header of an image file.
ghost use Rattle.std.specs.Prelude.{◌≡◌, ◌≤◌, ◌+◌, ◌++◌, ℕ, length, drop, Some, None, IfOk, IfErr, OnOk};
ghost use Rattle.dali_bytes.specs.Fields.{number32 as spelled32, number64 as spelled64};
ghost use Rattle.dali_crash.specs.Disks.Disks.{image_name};
ghost use Rattle.dali_image.specs.Headers.{heading, NoHeading, bad_header, IsWanted};
ghost use Rattle.dali_image.specs.Laws.{IsHeader};

use crate::ImageError;
use crate::error::BadAt;
use crate::parts::image_of;
use byteorder::{BigEndian, ByteOrder};
use dali_geometry::Geometry;
use dali_region::Side;

/// How many bytes a header has.
pub(crate) const SIZE: usize = 64;

// What an image file begins with.
const MARK: [u8; 8] = *b"DALIIMG1";

/// What the header of an image file says.
#[derive(Clone, Copy, PartialEq, Eq)]
pub struct Header {
    /// The sizes of the database.
    pub geometry: Geometry,
    /// The number of the checkpoint, which is that of the image.
    pub number: u64,
    /// The place in the log behind the records that the image knows of.
    pub place: u64,
    /// How many records stand before that place.
    pub first: u64,
    /// How many bytes spell these records, without the batches around them.
    pub weight: u64,
    /// The number of the next transaction.
    pub next: u64,
    /// How many bytes the table has.
    pub table: u64,
}

/// What the log and the anchor say of the current image.
#[derive(Clone, Copy, PartialEq, Eq)]
pub struct Expected {
    /// The sizes in the log's Format.
    pub geometry: Geometry,
    /// The number of the current image.
    pub number: u64,
    /// The length of the log in bytes.
    pub log: u64,
}

/// The bytes of a header. It takes no memory.
#[tactic(auto, unfolding(dali_bytes::specs::Fields::number32, dali_bytes::specs::Fields::number64))]
pub fn header_bytes(header: &Header) -> [u8; 64]
    ensures { result ≡ heading header.now }
{
    let mut bytes = [0; SIZE];
    bytes[..8].copy_from_slice(&MARK);
    BigEndian::write_u32(&mut bytes[8..], header.geometry.index());
    BigEndian::write_u32(&mut bytes[12..], header.geometry.heap());
    BigEndian::write_u64(&mut bytes[16..], header.number);
    BigEndian::write_u64(&mut bytes[24..], header.place);
    BigEndian::write_u64(&mut bytes[32..], header.first);
    BigEndian::write_u64(&mut bytes[40..], header.weight);
    BigEndian::write_u64(&mut bytes[48..], header.next);
    BigEndian::write_u64(&mut bytes[56..], header.table);
    bytes
}

// The number in the four bytes from a place on.
fn number32(bytes: &[u8], at: usize) -> u32
    requires { at + 4 ≤ length bytes.now }
    ensures { drop at bytes.now ≡ spelled32 result ++ drop (at + 4) bytes.now }
{
    BigEndian::read_u32(&bytes[at..])
}

// The number in the eight bytes from a place on.
fn number64(bytes: &[u8], at: usize) -> u64
    requires { at + 8 ≤ length bytes.now }
    ensures { drop at bytes.now ≡ spelled64 result ++ drop (at + 8) bytes.now }
{
    BigEndian::read_u64(&bytes[at..])
}

// The header that these bytes spell.
pub(crate) fn decode(bytes: &[u8; 64]) -> Result<Header, BadAt>
    ensures ok { IfOk result (λ header. bytes.now ≡ heading header) }
    ensures fits { IfOk result (λ header. IsHeader header) }
    ensures bad { IfErr result (λ e. NoHeading bytes.now e.at) }
{
    if !bytes.starts_with(&MARK) {
        return Err(BadAt { at: 0 });
    }
    let index = number32(bytes, 8);
    let heap = number32(bytes, 12);
    let Ok(geometry) = Geometry::new(index, heap) else {
        return Err(BadAt { at: 8 });
    };
    Ok(Header {
        geometry,
        number: number64(bytes, 16),
        place: number64(bytes, 24),
        first: number64(bytes, 32),
        weight: number64(bytes, 40),
        next: number64(bytes, 48),
        table: number64(bytes, 56),
    })
}

impl Header {
    // The first place of the header that is wrong.
    fn bad_place(&self, expected: &Expected) -> Option<u64>
        ensures { result ≡ bad_header self.now expected.now }
    {
        if self.geometry.index() != expected.geometry.index() {
            return Some(8);
        }
        if self.geometry.heap() != expected.geometry.heap() {
            return Some(8);
        }
        if self.number != expected.number {
            return Some(16);
        }
        if self.place < 15 {
            return Some(24);
        }
        if expected.log <= self.place {
            return Some(24);
        }
        if self.first >= 1 << 40 {
            return Some(32);
        }
        if self.first == 0 {
            return Some(32);
        }
        if self.weight >= 1 << 40 {
            return Some(40);
        }
        if self.next >= 1 << 40 {
            return Some(48);
        }
        if self.next == 0 {
            return Some(48);
        }
        None
    }

    /// Tests a header that was read from this side's image as that of the current image. `BadImage` of its file exactly
    /// where it is wrong, at the first place that is. It is wrong where the sizes are others, the number is another, or the
    /// place in the log is below 15 or not below the log's length. So it is where the records before it, the sum of their
    /// lengths or the next transaction's number are 2^40 or more, where that number is 0, or where no record stands before
    /// the place. Where it passes, none is (`IsWanted`). It takes no memory.
    pub fn check(&self, side: Side, expected: &Expected) -> Result<(), ImageError>
        ensures ok { OnOk result (bad_header self.now expected.now ≡ None) }
        ensures wanted { OnOk result (IsWanted self.now expected.now) }
        ensures bad { IfErr result (λ e. (at : ℕ) × (e ≡ ImageError.BadImage (image_name side) at) × (bad_header self.now expected.now ≡ Some at)) }
    {
        match self.bad_place(expected) {
            Some(at) => Err(ImageError::BadImage {
                file: image_of(side),
                at,
            }),
            None => Ok(()),
        }
    }
}
