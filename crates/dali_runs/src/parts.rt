//! What each part of a core keeps by itself: one region, the system with its table, locks and counts, and the vault.

ghost use Rattle.dali_runs.specs.Parts.Systems.{SystemKeeps, StepHasSystem, SystemLeaves};
ghost use Rattle.dali_runs.specs.Parts.Tables.{TableLogs, TableMoves, TableLeaves};
ghost use Rattle.dali_runs.specs.Parts.Locks.{LocksGrant, LocksRefuse, LocksLog};
ghost use Rattle.dali_runs.specs.Parts.Counts.{CountsLog};
ghost use Rattle.dali_runs.specs.Parts.Regions.{RegionMoves, RegionTouches, RegionMisses, RegionKeeps, StepHasRegion, RegionsLeave};
ghost use Rattle.dali_runs.specs.Parts.Logs.{LogLogs, HeldIsFree, SystemHasLog};
ghost use Rattle.dali_runs.specs.Parts.Vaults.{VaultFlushes, VaultFaults, VaultReads, VaultIsShort, VaultMisses, BareVaultFlushes, BareVaultFaults, BareVaultReads, BareVaultIsShort, BareVaultMisses, StepHasVault};
ghost use Rattle.dali_runs.specs.Parts.Joined.{PartsAreARun};
ghost use Rattle.dali_runs.specs.Parts.Shares.{ShareAppends, ShareAgain, ShareCounts, ShareIsShort, ShareAlone, ShareIsOrdered, RegionParts, RegionJoins, AuditsCertify, ShareTouches, StepSpares, TouchSpares, CheckIsSound};

/// Each step keeps what a run says of the system, with no region known but the one of the block that is logged.
pub fn the_system_keeps_its_part()
    ensures { SystemKeeps }
{}

/// Each step of a core is one of its system.
pub fn a_step_has_its_system()
    ensures { StepHasSystem }
{}

/// A step leaves the rows and locks of other transactions, the counts where it logs nothing, and the stop where it is no stop.
pub fn a_step_leaves_the_systems_rest()
    ensures { SystemLeaves }
{}

/// A step on one region keeps what a run says of it.
pub fn a_region_keeps_its_part()
    ensures { RegionMoves }
{}

/// So does the logging of the operation that is open there.
pub fn a_region_that_is_touched_keeps_its_part()
    ensures { RegionTouches }
{}

/// So does the logging of anything else.
pub fn a_region_that_is_left_keeps_its_part()
    ensures { RegionMisses }
{}

/// Each step keeps what a run says of each region.
pub fn each_region_keeps_its_part()
    ensures { RegionKeeps }
{}

/// Each step of a core is one of each of its regions.
pub fn a_step_has_its_region()
    ensures { StepHasRegion }
{}

/// A step leaves each region but its own.
pub fn a_step_leaves_other_regions()
    ensures { RegionsLeave }
{}

/// A region's share of a log is its own blocks: of two parts together what each one has, of itself itself, as many as are
/// counted on it, no more than the log has, and all of them where all are its blocks. No audit ends in it.
pub fn a_share_is_the_regions_blocks()
    ensures appends { ShareAppends }
    ensures again { ShareAgain }
    ensures counts { ShareCounts }
    ensures short { ShareIsShort }
    ensures alone { ShareAlone }
    ensures ordered { ShareIsOrdered }
{}

/// What a run says of a region it says of the region's share alone; and what it says of the share it says of the log, where
/// what the audits certify there is sound. It is where each audit that ended clean has certified the region.
pub fn a_region_keeps_its_share()
    ensures parts { RegionParts }
    ensures joins { RegionJoins }
    ensures audits { AuditsCertify }
{}

/// The logging of the operation that is open there keeps what a run says of the share.
pub fn a_region_that_is_touched_keeps_its_share()
    ensures { ShareTouches }
{}

/// What is sound on a region stays so behind a step on it and behind a block, and a check that was missed stays missed. A
/// check that tells no stray write, and misses none, finds all blocks before it sound.
pub fn what_is_sound_stays_so()
    ensures step { StepSpares }
    ensures touch { TouchSpares }
    ensures check { CheckIsSound }
{}

/// A flush keeps what a run says of the vault, of each crash image by itself, and where nothing is said of crashes.
pub fn a_vault_that_flushes_keeps_its_part()
    ensures each { VaultFlushes }
    ensures bare { BareVaultFlushes }
{}

/// So does a fault in a flush.
pub fn a_vault_that_fails_keeps_its_part()
    ensures each { VaultFaults }
    ensures bare { BareVaultFaults }
{}

/// So does a read of the log that fails.
pub fn a_vault_whose_read_fails_keeps_its_part()
    ensures each { VaultReads }
    ensures bare { BareVaultReads }
{}

/// In a legal log the vault ends below 2^62, so a flush may add its frame behind it.
pub fn a_vault_ends_below_its_limit()
    ensures each { VaultIsShort }
    ensures bare { BareVaultIsShort }
{}

/// So does the logging of more records.
pub fn a_vault_that_is_left_keeps_its_part()
    ensures each { VaultMisses }
    ensures bare { BareVaultMisses }
{}

/// Each step of a core is one of its vault.
pub fn a_step_has_its_vault()
    ensures { StepHasVault }
{}

/// A record that the rules allow, that can be spelled, whose block reads some word, and which is free, keeps what a run
/// says of the log; and only such a one does. Where the owner of its block holds the lock for it, it is free.
pub fn a_log_that_grows_keeps_its_part()
    ensures logs { LogLogs }
    ensures free { HeldIsFree }
{}

/// Each step of a system logs such a record, or leaves the log.
pub fn a_step_has_its_log()
    ensures { SystemHasLog }
{}

/// The parts together are what a run says of the core.
pub fn the_parts_are_a_run()
    ensures { PartsAreARun }
{}

/// A record that the rules allow keeps what a run says of the table.
pub fn a_table_that_logs_keeps_its_part()
    ensures { TableLogs }
{}

/// So does a death, a claim, and a claim that is given back.
pub fn a_table_that_moves_keeps_its_part()
    ensures { TableMoves }
{}

/// A record leaves the rows of those that it doesn't concern.
pub fn a_record_leaves_other_rows()
    ensures { TableLeaves }
{}

/// A lock that is granted keeps what a run says of the locks.
pub fn locks_that_are_granted_keep_their_part()
    ensures { LocksGrant }
{}

/// So does a request that is refused.
pub fn locks_that_are_refused_keep_their_part()
    ensures { LocksRefuse }
{}

/// So does a record more: an end frees its transaction's locks, and any other one leaves them.
pub fn locks_behind_a_record_keep_their_part()
    ensures { LocksLog }
{}

/// A record that the rules allow keeps what a run says of the counts.
pub fn counts_behind_a_record_keep_their_part()
    ensures { CountsLog }
{}
