//! A restart makes what it came to the current image.
ghost use Rattle.std.specs.Prelude.{◌≡◌, ◌⊎◌, ◌<◌, ◌≤◌, ◌+◌, ◌*◌, ◌^◌, ◌↔◌, [], ◌∷◌, min, length, vec_capacity, is_some, None, IfOk, IfErr, OnOk, OnErr, IfSome, IsErrOf};
ghost use Rattle.dali_geometry.specs.Places.{regions as regions_of};
ghost use Rattle.dali_store.specs.Calls.{fewer, PassesFewer, MakesAtMost};
ghost use Rattle.dali_store.specs.Faults.{Rose, HasCause};
ghost use Rattle.dali_store.specs.Store.{Files};
ghost use Rattle.dali_log.specs.Batch.{IsClosedAt};
ghost use Rattle.dali_log.specs.Appending.{next_place};
ghost use Rattle.dali_crash.specs.Checkpoints;
ghost use Rattle.dali_log.specs.Anchors.{AreAnchored};
ghost use Rattle.dali_restart.specs.Renewal.Written.{image_calls};
ghost use Rattle.dali_restart.specs.Renewal.Logged.{restart_length, AreAscending};
ghost use Rattle.dali_restart.specs.Renewal.Renewed.{ImageTurns, TurnStops, TurnKeeps, LogTurns, LogStops, LogKeeps, Renews, Stops, Keeps, AnswersAlike, AreReady, KeepLogs, end_before, end_of, renewal_calls};
ghost use Rattle.dali_restart.specs.declared.renewal.error.RenewalError.TheVariants as errors;

use crate::renewal::error::RenewalError;
use crate::renewal::imaging::{name_of, room_for, write_whole};
use crate::renewal::logging::restart_frame;
use dali_geometry::Geometry;
use dali_image::Header;
use dali_log::{Frame, append, move_anchor};
use dali_region::Side;
use dali_store::{Store, StoreFault};
use std::alloc::Global;

/// Where a restart stands once it has recovered: what the log says without the record of the restart, and which image is
/// the current one.
#[derive(Clone, Copy, PartialEq, Eq)]
pub struct Standing {
    /// The sizes of the database.
    pub geometry: Geometry,
    /// The number of the current image: how many gates of the anchor are open.
    pub current: u64,
    /// The place in the log behind its records, where the record of the restart stands or goes.
    pub place: u64,
    /// How many records stand before that place.
    pub first: u64,
    /// How many bytes spell these records, without the batches around them.
    pub weight: u64,
    /// The number of the next transaction.
    pub next: u64,
}

// The side of the image with this number.
fn side_of(number: u64) -> Side
    ensures { result ≡ Checkpoints.side_of number }
{
    if number % 2 == 1 { Side::A } else { Side::B }
}

// Writes the image that the restart came to into the file of the next one, and moves the anchor to it.
fn turn_image<V: Store>(
    store: &mut V,
    standing: &Standing,
    regions: &[[u64; 64]],
    buffer: &mut Vec<u8>,
) -> Result<(), StoreFault>
    requires small { (standing.now.place < 2 ^ 62) × (standing.now.current < 2 ^ 62) }
    requires whole { length regions.now ≡ regions_of standing.now.geometry }
    requires room { 512 * min 128 (length regions.now) ≤ vec_capacity buffer.old }
    requires anchored { IfSome (V.told store.old) (λ _. AreAnchored (V.may_leave store.old) standing.now.current) }
    ensures anchored { OnOk result (IfSome (V.told store.old) (λ _. AreAnchored (V.may_leave store.new) (standing.now.current + 1))) }
    ensures logs { OnOk result (IfSome (V.told store.old) (λ _. KeepLogs (V.may_leave store.old) (V.may_leave store.new))) }
    ensures turns { OnOk result (IfSome (V.told store.old) (λ _. ImageTurns V.may_leave V.moment V.left_since standing.now regions.now store.old store.new)) }
    ensures stops { IfSome (V.told store.old) (λ _. TurnStops V.may_leave V.moment V.left_since standing.now regions.now store.old store.new) }
    ensures keeps { IfSome (V.told store.old) (λ _. TurnKeeps V.may_leave V.moment V.left_since standing.now regions.now store.old store.new) }
    ensures tells { is_some (V.told store.new) ≡ is_some (V.told store.old) }
    ensures cause { HasCause (V.faults store.old) (V.faults store.new) result }
    ensures calls { OnOk result (V.lets_pass store.new ≡ fewer (image_calls (length regions.now) + 4) (V.lets_pass store.old)) }
    ensures most { MakesAtMost (image_calls (length regions.now) + 4) (V.lets_pass store.old) (V.lets_pass store.new) }
    ensures passes { PassesFewer (V.lets_pass store.old) (V.lets_pass store.new) }
{
    let _count = standing.geometry.regions();
    let header = Header {
        geometry: standing.geometry,
        number: standing.current + 1,
        place: standing.place,
        first: standing.first,
        weight: standing.weight,
        next: standing.next,
        table: 4,
    };
    let file = name_of(side_of(header.number));
    write_whole(store, file, &header, regions, buffer)?;
    move_anchor(store, standing.current)?;
    Ok(())
}

// The same behind the record of the restart, which is added to the log first.
fn log_and_turn<V: Store>(
    store: &mut V,
    standing: &Standing,
    frame: &Frame,
    regions: &[[u64; 64]],
    buffer: &mut Vec<u8>,
) -> Result<u64, StoreFault>
    requires small { (standing.now.place < 2 ^ 62) × (standing.now.current < 2 ^ 62) }
    requires whole { length regions.now ≡ regions_of standing.now.geometry }
    requires room { 512 * min 128 (length regions.now) ≤ vec_capacity buffer.old }
    requires filled { 0 < length frame.now.body }
    requires closed { IfSome (V.told store.old) (λ _. (c : Files) → V.may_leave store.old c → IsClosedAt standing.now.place c.log) }
    requires anchored { IfSome (V.told store.old) (λ _. AreAnchored (V.may_leave store.old) standing.now.current) }
    ensures next { IfOk result (λ next. next ≡ next_place standing.now.place (frame.now.body ∷ [])) }
    ensures ready { OnOk result (IfSome (V.told store.old) (λ _. AreReady (V.may_leave store.new) (next_place standing.now.place (frame.now.body ∷ [])) (standing.now.current + 1))) }
    ensures turns { OnOk result (IfSome (V.told store.old) (λ _. LogTurns V.may_leave V.moment V.left_since standing.now frame.now.body regions.now store.old store.new)) }
    ensures stops { IfSome (V.told store.old) (λ _. LogStops V.may_leave V.moment V.left_since standing.now frame.now.body regions.now store.old store.new) }
    ensures keeps { IfSome (V.told store.old) (λ _. LogKeeps V.may_leave V.moment V.left_since standing.now frame.now.body regions.now store.old store.new) }
    ensures tells { is_some (V.told store.new) ≡ is_some (V.told store.old) }
    ensures cause { HasCause (V.faults store.old) (V.faults store.new) result }
    ensures calls { OnOk result (V.lets_pass store.new ≡ fewer (4 + (image_calls (length regions.now) + 4)) (V.lets_pass store.old)) }
    ensures most { MakesAtMost (4 + (image_calls (length regions.now) + 4)) (V.lets_pass store.old) (V.lets_pass store.new) }
    ensures passes { PassesFewer (V.lets_pass store.old) (V.lets_pass store.new) }
{
    let end = append(store, standing.place, frame)?;
    turn_image(store, standing, regions, buffer)?;
    Ok(end)
}

/// Writes what a restart came to, and answers where the log ends then. Where the record Restarted stands in the log already,
/// `logged` says where the log ends behind it, and the lists aren't looked at. Else the record is added to the log with
/// these lists of the transactions that were rolled back and deleted. Then the words of the regions are written as an image
/// with an empty table into the file that the anchor doesn't name: its number is the next one, and it stands before that
/// record. That file is synced, and the anchor moves to it.
///
/// Let each disk that a crash may leave spell files from which the restart of a log came to these words, numbers and lists.
/// Then each is at one of the stages of that restart, at any moment: as it was found, with the record, or with the new image.
/// A record that stood there already stays. So a restart that follows a stop in here hands out the same records and the same
/// lists. After Ok each has the new image, and a vault may be made over the store. Of any files that end at this place the
/// batches of the log stay, with that record behind them or without it, whatever the words of their image are (`keeps`).
///
/// `TooLong` exactly where the record is to be logged and has more than 2^30 bytes; then, and where memory is refused
/// (`OutOfMemory`), no call is made. `Fault` exactly where the store's count of faults rose. It takes memory for one write
/// of 128 regions and for the record, three times, and gives it back.
pub fn renew<V: Store>(
    alloc: Global,
    store: &mut V,
    standing: &Standing,
    logged: Option<u64>,
    rolled_back: &[u64],
    deleted: &[u64],
    regions: &[[u64; 64]],
) -> Result<u64, RenewalError>
    requires small { (standing.now.place < 2 ^ 62) × (standing.now.current < 2 ^ 62) }
    requires whole { length regions.now ≡ regions_of standing.now.geometry }
    requires ascending { AreAscending rolled_back.now deleted.now }
    requires closed { IfSome (V.told store.old) (λ _. (c : Files) → V.may_leave store.old c → IsClosedAt (end_before logged standing.now) c.log) }
    requires anchored { IfSome (V.told store.old) (λ _. AreAnchored (V.may_leave store.old) standing.now.current) }
    ensures end { IfOk result (λ end. end ≡ end_of logged standing.now rolled_back.now deleted.now) }
    ensures ready { IfOk result (λ end. IfSome (V.told store.old) (λ _. AreReady (V.may_leave store.new) end (standing.now.current + 1))) }
    ensures renews { OnOk result (IfSome (V.told store.old) (λ _. Renews V.may_leave V.moment V.left_since standing.now logged rolled_back.now deleted.now regions.now store.old store.new)) }
    ensures stops { IfSome (V.told store.old) (λ _. Stops V.may_leave V.moment V.left_since standing.now logged rolled_back.now deleted.now regions.now store.old store.new) }
    ensures answers { IfSome (V.told store.old) (λ _. AnswersAlike V.may_leave V.moment V.left_since standing.now logged rolled_back.now deleted.now regions.now store.old store.new) }
    ensures keeps { IfSome (V.told store.old) (λ _. Keeps V.may_leave V.moment V.left_since standing.now logged rolled_back.now deleted.now regions.now store.old store.new) }
    ensures tells { is_some (V.told store.new) ≡ is_some (V.told store.old) }
    ensures long { IsErrOf result errors.TooLong ↔ ((logged ≡ None) × (2 ^ 30 < restart_length rolled_back.now deleted.now)) }
    ensures untouched { (IsErrOf result errors.Fault → ⊥) → OnErr result (store.new ≡ store.old) }
    ensures fault { IsErrOf result errors.Fault → Rose (V.faults store.old) (V.faults store.new) }
    ensures later { V.faults store.old ≤ V.faults store.new }
    ensures kept { (IsErrOf result errors.Fault → ⊥) → V.faults store.new ≡ V.faults store.old }
    ensures calls { OnOk result (V.lets_pass store.new ≡ fewer (renewal_calls logged (length regions.now)) (V.lets_pass store.old)) }
    ensures most { MakesAtMost (renewal_calls logged (length regions.now)) (V.lets_pass store.old) (V.lets_pass store.new) }
    ensures passes { PassesFewer (V.lets_pass store.old) (V.lets_pass store.new) }
{
    match logged {
        Some(end) => {
            let mut buffer = match room_for(alloc, regions.len()) {
                Ok(buffer) => buffer,
                Err(error) => return Err(error),
            };
            match turn_image(store, standing, regions, &mut buffer) {
                Ok(()) => Ok(end),
                Err(StoreFault) => Err(RenewalError::Fault),
            }
        }
        None => {
            let frame = match restart_frame(alloc, rolled_back, deleted) {
                Ok(frame) => frame,
                Err(error) => return Err(error),
            };
            let mut buffer = match room_for(alloc, regions.len()) {
                Ok(buffer) => buffer,
                Err(error) => return Err(error),
            };
            match log_and_turn(store, standing, &frame, regions, &mut buffer) {
                Ok(end) => Ok(end),
                Err(StoreFault) => Err(RenewalError::Fault),
            }
        }
    }
}
