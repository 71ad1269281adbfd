//! One undo of a clean-up, on the region that it wants.
ghost use Rattle.std.specs.Prelude.{◌≡◌, true, Err, None, IsSomeAnd, IfSome, OnOk, OnErr, IfErr};
ghost use Rattle.dali_record.specs.Spelling.{IsUndo};
ghost use Rattle.dali_system.specs.Refused.{stop_refusal};
ghost use Rattle.dali_system.specs.declared.error.SystemError.TheVariants.{OutOfMemory as Memory};
ghost use Rattle.dali_calls.specs.Flags.{FlagStays};
ghost use Rattle.dali_calls.specs.Operating.{Undone, IsTakenBack};
ghost use Rattle.dali_clean.specs.Undone.{Released, IsUnheld};

use dali_calls::write_back;
use dali_region::Region;
use dali_system::{System, SystemError, TakeBack};

// Performs the undo that is last now, and logs its block. Where that is refused the words are taken back.
pub(crate) fn undo(
    back: &mut TakeBack,
    region: &mut Region,
    system: &mut System,
) -> Result<(), SystemError>
    requires wants { IsSomeAnd back.old.next (λ u. IsUndo u.undo) }
    requires closed { back.old.operation ≡ None }
    requires unheld { region.old.hold ≡ None }
    ensures ok { OnOk result (Undone back.old region.old system.old.state back.new region.new system.new.state) }
    ensures undoes { OnOk result (IfSome back.new.next (λ u. IsUndo u.undo)) }
    ensures err { OnErr result ((system.new ≡ system.old) × IsTakenBack back.old.txn region.old region.new) }
    ensures promised { system.new.promised ≡ system.old.promised }
    ensures refused { IfSome (stop_refusal system.old.state) (λ e. result ≡ Err e) }
    ensures memory { stop_refusal system.old.state ≡ None → IfErr result (λ e. e ≡ Memory) }
{
    if back.latch(region, false).is_err() {
        unreachable!()
    }
    write_back(back, region);
    match back.commit(region, system) {
        Ok(_) => Ok(()),
        Err(error) => Err(error),
    }
}

/// Takes back the operation in which a client died, if one left it on the region, so that the region may be latched. Its
/// transaction is claimed for that, and dead again behind it, with no region latched. It takes no memory.
pub fn release(region: &mut Region, system: &mut System)
    requires dead { IfSome region.old.hold (λ h. h.dead ≡ true) }
    ensures released { Released region.old system.old.state region.new system.new.state }
    ensures unheld { IsUnheld region.new }
    ensures promised { system.new.promised ≡ system.old.promised }
    ensures flags { FlagStays region.old region.new }
{
    let Some(hold) = region.hold() else {
        return;
    };
    match system.claim(hold.txn) {
        Ok(_) => {
            region.take_back();
            system.mark_dead(hold.txn, None);
        }
        // who claimed it has it in hand
        Err(_) => region.take_back(),
    }
}
