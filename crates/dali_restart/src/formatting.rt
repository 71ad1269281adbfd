//! A database is made in a store whose log has none.
ghost use Rattle.std.specs.Prelude.{◌≡◌, ◌≤◌, ◌⊎◌, true, false, IfOk, IfErr, OnOk, IfSome, IsErrOf, MatchResult, is_some};
ghost use Rattle.dali_record.specs.declared.records.Record.TheVariants.{Format};
ghost use Rattle.dali_record.specs.Spelling.{CanBeSpelled};
ghost use Rattle.dali_store.specs.Calls.{PassesFewer, MakesAtMost};
ghost use Rattle.dali_store.specs.Faults.{Rose, HasCause};
ghost use Rattle.dali_store.specs.Store.{Files, LeavesOnly};
ghost use Rattle.dali_log.specs.Batch.{IsUnformatted};
ghost use Rattle.dali_log.specs.Formatting.{FormatLeaves, IsFormattedBy};
ghost use Rattle.dali_log.specs.Reads.{OnlyReads};
ghost use Rattle.dali_core.specs.Cores.{IsWholeCore};
ghost use Rattle.dali_restart.specs.declared.error.RestartError.TheVariants as errors;
ghost use Rattle.dali_restart.specs.Formatted.{first_body, formatted_regions, first_system, IsNewCore, MakesAtAnyMoment, IsLeft, RunBegins};

use crate::error::{Refused, RestartError};
use crate::regions;
use dali_bytes::OutOfMemory;
use dali_core::Core;
use dali_core::vault::Vault;
use dali_geometry::Geometry;
use dali_log::{Frame, is_formatted};
use dali_record::{Record, encode};
use dali_region::Region;
use dali_store::{Store, StoreFault};
use dali_system::System;
use std::alloc::Global;

// The first batch of a log.
fn first_frame(alloc: Global, geometry: &Geometry) -> Result<Frame, OutOfMemory>
    ensures body { IfOk result (λ frame. frame.body ≡ first_body geometry.now) }
    ensures spelled { CanBeSpelled (Format geometry.now.index geometry.now.heap) }
{
    let mut bytes = Vec::new(alloc);
    let first = Record::Format {
        index: geometry.index(),
        heap: geometry.heap(),
    };
    encode(&first, &mut bytes)?;
    let mut frame = Frame::new(alloc)?;
    frame.add(&bytes)?;
    Ok(frame)
}

// What a core has in memory.
#[derive(Drop)]
struct Made {
    regions: Vec<Region>,
    system: System,
}

// What the core of a new database has there.
fn make(alloc: Global, geometry: Geometry, limit: u64) -> Result<Made, RestartError>
    requires { limit ≤ 268435456 }
    ensures regions { IfOk result (λ made. made.regions.items ≡ formatted_regions geometry) }
    ensures system { IfOk result (λ made. made.system ≡ first_system geometry limit) }
    ensures wanting { IfErr result (λ e. e ≡ errors.OutOfMemory) }
{
    let regions = regions::formatted(alloc, &geometry)?;
    let system = System::new(alloc, geometry, 1, 1, 10, limit)?;
    Ok(Made { regions, system })
}

// Writes the first batch to a log of which it is known that it has none, whatever a crash leaves.
fn write_first<V: Store>(
    store: &mut V,
    geometry: &Geometry,
    frame: &Frame,
) -> Result<u64, StoreFault>
    requires first { frame.now.body ≡ first_body geometry.now }
    requires spelled { CanBeSpelled (Format geometry.now.index geometry.now.heap) }
    requires unformatted { IfSome (V.told store.old) (λ _. (c : Files) → V.may_leave store.old c → IsUnformatted c.log) }
    ensures end { IfOk result (λ end. end ≡ 15) }
    ensures makes { OnOk result (IfSome (V.told store.old) (λ _. (c : Files) → V.may_leave store.new c → IsFormattedBy (V.may_leave store.old) (first_body geometry.now) c)) }
    ensures any_moment { IfSome (V.told store.old) (λ _. LeavesOnly V.moment V.left_since store.old store.new (FormatLeaves (V.may_leave store.old) (first_body geometry.now))) }
    ensures tells { is_some (V.told store.new) ≡ is_some (V.told store.old) }
    ensures cause { HasCause (V.faults store.old) (V.faults store.new) result }
    ensures most { MakesAtMost 9 (V.lets_pass store.old) (V.lets_pass store.new) }
    ensures passes { PassesFewer (V.lets_pass store.old) (V.lets_pass store.new) }
{
    dali_log::format(store, frame)
}

// Refuses a log that has a first batch, once it is synced: then no crash leaves it otherwise.
fn refuse_formatted<V: Store>(store: &mut V) -> Result<(), RestartError>
    ensures unformatted { OnOk result (IfSome (V.told store.old) (λ fs. IsUnformatted fs.log)) }
    ensures ready { OnOk result (IfSome (V.told store.new) (λ _. (c : Files) → V.may_leave store.new c → IsUnformatted c.log)) }
    ensures formatted { IsErrOf result errors.Formatted → IfSome (V.told store.old) (λ fs. IsUnformatted fs.log → ⊥) }
    ensures errors { IfErr result (λ e. (e ≡ errors.Fault) ⊎ (e ≡ errors.Formatted)) }
    ensures reads { OnlyReads V.told V.moment V.left_since V.may_leave store.old store.new }
    ensures fault { IsErrOf result errors.Fault → Rose (V.faults store.old) (V.faults store.new) }
    ensures later { V.faults store.old ≤ V.faults store.new }
    ensures kept { (IsErrOf result errors.Fault → ⊥) → V.faults store.new ≡ V.faults store.old }
    ensures most { MakesAtMost 3 (V.lets_pass store.old) (V.lets_pass store.new) }
    ensures passes { PassesFewer (V.lets_pass store.old) (V.lets_pass store.new) }
{
    match is_formatted(store) {
        Ok(true) => Err(RestartError::Formatted),
        Ok(false) => Ok(()),
        Err(StoreFault) => Err(RestartError::Fault),
    }
}

// Makes a database in the files of a store, and what its core has in memory; it answers where the log ends.
fn make_in<V: Store>(
    alloc: Global,
    store: &mut V,
    geometry: Geometry,
    limit: u64,
) -> Result<(Made, u64), RestartError>
    requires { limit ≤ 268435456 }
    ensures regions { IfOk result (λ made. made.0.regions.items ≡ formatted_regions geometry) }
    ensures system { IfOk result (λ made. made.0.system ≡ first_system geometry limit) }
    ensures end { IfOk result (λ made. made.1 ≡ 15) }
    ensures spelled { OnOk result (CanBeSpelled (Format geometry.index geometry.heap)) }
    ensures makes { OnOk result (IfSome (V.told store.old) (λ _. (c : Files) → V.may_leave store.new c → IsFormattedBy (V.may_leave store.old) (first_body geometry) c)) }
    ensures unformatted { OnOk result (IfSome (V.told store.old) (λ fs. IsUnformatted fs.log)) }
    ensures formatted { IsErrOf result errors.Formatted → IfSome (V.told store.old) (λ fs. IsUnformatted fs.log → ⊥) }
    ensures wanting { IsErrOf result errors.OutOfMemory → IfSome (V.told store.old) (λ fs. IsUnformatted fs.log) }
    ensures reads { (IsErrOf result errors.Formatted) ⊎ (IsErrOf result errors.OutOfMemory) → OnlyReads V.told V.moment V.left_since V.may_leave store.old store.new }
    ensures errors { IfErr result (λ e. (e ≡ errors.Fault) ⊎ (e ≡ errors.Formatted) ⊎ (e ≡ errors.OutOfMemory)) }
    ensures any_moment { MakesAtAnyMoment V.told V.may_leave V.moment V.left_since geometry store.old store.new }
    ensures tells { is_some (V.told store.new) ≡ is_some (V.told store.old) }
    ensures fault { IsErrOf result errors.Fault → Rose (V.faults store.old) (V.faults store.new) }
    ensures later { V.faults store.old ≤ V.faults store.new }
    ensures kept { (IsErrOf result errors.Fault → ⊥) → V.faults store.new ≡ V.faults store.old }
    ensures most { MakesAtMost 12 (V.lets_pass store.old) (V.lets_pass store.new) }
    ensures passes { PassesFewer (V.lets_pass store.old) (V.lets_pass store.new) }
{
    match refuse_formatted(store) {
        Ok(()) => {}
        Err(error) => return Err(error),
    }
    let frame = match first_frame(alloc, &geometry) {
        Ok(frame) => frame,
        Err(_) => return Err(RestartError::OutOfMemory),
    };
    let made = match make(alloc, geometry, limit) {
        Ok(made) => made,
        Err(error) => return Err(error),
    };
    match write_first(store, &geometry, &frame) {
        Ok(end) => Ok((made, end)),
        Err(StoreFault) => Err(RestartError::Fault),
    }
}

/// Makes a database of these sizes in a store whose log has no batch, and gives the core over it: formatted regions,
/// nobody at work, a log of its first record, which ends at 15, no checkpoint. The log is synced before its first gate is
/// looked at. A crash at any moment leaves a log without batches, which may be formatted again, or the first batch, behind
/// an anchor with a closed gate; the image files stay, and aren't read before a checkpoint. The limit is that of the
/// records' bytes, at most 268,435,456.
///
/// `Formatted` exactly where the log's first gate is open, if no call failed; then, and where memory is refused
/// (`OutOfMemory`), nothing is written. `Fault` exactly where the store's count of faults rose. The store comes back with
/// the error. It takes 1,120 bytes of memory a region, behind the look at the gate.
pub fn format<V: Store>(
    alloc: Global,
    store: V,
    geometry: Geometry,
    limit: u64,
) -> Result<Core<V>, Refused<V>>
    requires { limit ≤ 268435456 }
    ensures core { IfOk result (λ core. IsNewCore geometry limit core.regions.items core.system core.vault) }
    ensures whole { IfOk result (λ core. IsWholeCore V.told core.regions.items core.system.state core.vault) }
    // The first steps of a run may follow.
    ensures begins { IfOk result (λ core. RunBegins V.Store geometry limit core.regions.items core.system.state core.vault) }
    ensures makes { IfOk result (λ core. IfSome (V.told store) (λ _. (c : Files) → V.may_leave core.vault.store c → IsFormattedBy (V.may_leave store) (first_body geometry) c)) }
    ensures unformatted { OnOk result (IfSome (V.told store) (λ fs. IsUnformatted fs.log)) }
    ensures formatted { IfErr result (λ refused. refused.error ≡ errors.Formatted → IfSome (V.told store) (λ fs. IsUnformatted fs.log → ⊥)) }
    ensures wanting { IfErr result (λ refused. refused.error ≡ errors.OutOfMemory → IfSome (V.told store) (λ fs. IsUnformatted fs.log)) }
    ensures reads { IfErr result (λ refused. (refused.error ≡ errors.Formatted) ⊎ (refused.error ≡ errors.OutOfMemory) → OnlyReads V.told V.moment V.left_since V.may_leave store refused.store) }
    ensures errors { IfErr result (λ refused. (refused.error ≡ errors.Fault) ⊎ (refused.error ≡ errors.Formatted) ⊎ (refused.error ≡ errors.OutOfMemory)) }
    ensures fault { IfErr result (λ refused. refused.error ≡ errors.Fault → Rose (V.faults store) (V.faults refused.store)) }
    ensures kept { MatchResult result (λ core. V.faults core.vault.store ≡ V.faults store) (λ refused. (refused.error ≡ errors.Fault → ⊥) → V.faults refused.store ≡ V.faults store) }
    ensures leaves { MatchResult result (λ core. IsLeft V.Store geometry store core.vault.store)
        (λ refused. IsLeft V.Store geometry store refused.store) }
{
    let mut store = store;
    match make_in(alloc, &mut store, geometry, limit) {
        Ok((made, end)) => Ok(Core {
            regions: made.regions,
            system: made.system,
            vault: Vault::new(store, end, 0),
        }),
        Err(error) => Err(Refused { store, error }),
    }
}
