//! A core over a store of which calls fail: that it is flushed with ample memory, what is left where each call fails, and that it
//! and its parts may be given to a thread.
ghost use Rattle.std.specs.Prelude.{◌≡◌};

use super::vaults::new_vault;
use dali_core::vault::VaultError;
use dali_core::{Core, flush};
use dali_fuse::Fuse;
use dali_geometry::Geometry;
use dali_log::Found;
use dali_memstore::MemoryStore;
use dali_runs::Cause;
use dali_store::Store;
use dali_system::System;
use std::alloc::Global;
use std::test::Fail;

fn sent<T: Send>(value: T) -> T
    ensures { result ≡ value }
{
    value
}

// Threads may be given a core, and its regions, its system and its vault, whatever store it has that may be given itself.
fn crosses_threads<V: Store + Send>(core: Core<V>) -> Core<V>
    ensures { result ≡ core }
{
    let Core {
        regions,
        system,
        vault,
    } = sent(core);
    Core {
        regions: sent(regions),
        system: sent(system),
        vault: sent(vault),
    }
}

// The core of a store that passes so many calls on once it is formatted, without regions, and with one transaction that
// has begun.
fn begun(alloc: Global, passes: u64) -> Option<Core<Fuse<MemoryStore>>> {
    let (vault, _) = new_vault(alloc, passes)?;
    let geometry = Geometry::new(1, 1).ok()?;
    let mut system = System::new(alloc, geometry, 1, 1, 10, 1000).ok()?;
    let Ok((1, _)) = system.begin() else {
        return None;
    };
    Some(crosses_threads(Core {
        regions: Vec::new(alloc),
        system,
        vault,
    }))
}

fn flush_core<V: Store>(core: &mut Core<V>, alloc: Global) -> Option<Result<(), VaultError>> {
    if core.vault.end() >= 1 << 62 {
        return None;
    }
    Some(flush(core, alloc))
}

// What a core tells behind a call: why its system is stopped, whether its vault is, how many records are flushed and how
// many bytes wait, and where its log ends.
fn seen<V: Store>(core: &Core<V>) -> (Option<Cause>, bool, u64, usize, u64) {
    (
        core.system.stopped(),
        core.vault.stopped(),
        core.vault.flushed(),
        core.system.frame().len(),
        core.vault.end(),
    )
}

// A flush of the begin where so many calls pass, and a second one of nothing.
fn flush_twice(
    alloc: Global,
    passes: u64,
) -> Option<
    (
        Result<(), VaultError>,
        Result<(), VaultError>,
        (Option<Cause>, bool, u64, usize, u64),
        bool,
    ),
> {
    let mut core = begun(alloc, passes)?;
    let first = flush_core(&mut core, alloc)?;
    let second = flush_core(&mut core, alloc)?;
    let told = seen(&core);
    let there = matches!(core.vault.read_log(alloc, 15), Ok(Found::Batch { .. }));
    Some((first, second, told, there))
}

// A begin has 9 bytes, and a batch five more; the second flush makes no call.
#[test]
fn a_fault_stops_vault_and_system(rt: HostRuntime) -> Result<(), Fail> {
    let alloc = rt.alloc();
    let stopped = (Some(Cause::Store), true, 0, 0, 15);
    let (fault, again) = (Err(VaultError::Fault), Err(VaultError::Stopped));
    for (passes, first, second, told, there) in [
        (0, fault, again, stopped, false),
        (1, fault, again, stopped, false),
        (2, fault, again, stopped, false),
        (3, fault, again, stopped, false),
        (4, Ok(()), Ok(()), (None, false, 1, 0, 29), false),
        (50, Ok(()), Ok(()), (None, false, 1, 0, 29), true),
    ] {
        assert_eq!(rt;
            flush_twice(alloc, passes),
            Some((first, second, told, there))
        );
    }
    Ok(())
}
