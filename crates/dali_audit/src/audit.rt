//! One audit, from its begin to its verdict.
ghost use Rattle.std.specs.List.{list_all};
ghost use Rattle.std.specs.Prelude.{◌≡◌, ◌<◌, ◌≤◌, ◌+◌, ◌^◌, ◌++◌, ℕ, List, [], ◌∷◌, Some, None, Err, OnOk, OnErr, IfOk, IfErr, IfSome, length, take, replicate, slice_get, slice_set, true};
ghost use Rattle.dali_geometry.specs.Places.{regions as regions_of};
ghost use Rattle.dali_record.specs.declared.records.Record.TheVariants.{AuditBegin, AuditFail};
ghost use Rattle.dali_record.specs.Spelling.{CanBeSpelled};
ghost use Rattle.dali_region.specs.State.{checked};
ghost use Rattle.dali_runs.specs.Steps.{audit_begun, audit_ended, audit_record};
ghost use Rattle.dali_system.specs.Audits.{audit_refusal};
ghost use Rattle.dali_system.specs.Refused.{stop_refusal};
ghost use Rattle.dali_system.specs.declared.error.SystemError.TheVariants.{OutOfMemory as Memory};
ghost use Rattle.dali_audit.specs.declared.audit.Finding.TheVariants.{Waiting};
ghost use Rattle.dali_audit.specs.Findings;
ghost use Rattle.dali_audit.specs.Findings.{finding_of, finding_if, damaged, damaged_from, AllPassed};

use dali_record::{Record, Regions};
use dali_region::{Receipt, Region};
use dali_system::{System, SystemError};
use std::alloc::{AllocError, Global};
use std::marker::Model;
use std::mem;

/// What an audit knows of a region.
#[derive(Clone, Copy, PartialEq, Eq)]
pub enum Finding {
    /// It wasn't passed yet.
    Waiting,
    /// Its words had the parity of its codeword.
    Clean,
    /// They hadn't.
    Damaged,
}

/// An audit that goes on: the number of the record with which it began, and what it found of each region.
///
/// After `begin` each region is passed once, in any order, and `end` logs what was found. Between them other records may
/// be logged. An audit that isn't ended leaves its begin in the log, which changes nothing.
#[derive(Drop)]
pub struct Audit {
    begin: u64,
    findings: Vec<Finding>,
    failing: Vec<u32>,
    // no numbers: they stand in the record of the end while its own are taken out
    spare: Regions,
}

impl Model for Audit {
    ghost use Rattle.dali_audit.specs.Findings.{Audited};
    ghost use Rattle.dali_audit.specs.Fields.{audited_of, HasRoom};

    ghost Value = { Audited };

    ghost view = { audited_of };

    ghost invariant = { HasRoom };
}

/// What an audit found: the number of the record with which it began, and the regions whose words hadn't the parity of
/// their codeword, ascending.
#[derive(Drop)]
pub struct Verdict {
    begin: u64,
    failing: Vec<u32>,
}

impl Model for Verdict {
    ghost use Rattle.dali_audit.specs.Findings.{Judged};

    ghost Value = { Judged };

    ghost view = { λ v. record { begin = v.begin; failing = v.failing.items } };
}

impl Verdict {
    /// The number of the record with which the audit began.
    pub fn begin(&self) -> u64
        ensures { result ≡ self.now.begin }
    {
        self.begin
    }

    /// The regions whose words hadn't the parity of their codeword, ascending.
    pub fn failing(&self) -> &[u32]
        ensures { result.now ≡ self.now.failing }
    {
        &self.failing
    }

    /// These regions as a list. It takes no memory.
    pub fn into_failing(self) -> Regions
        ensures { result ≡ self.failing }
    {
        Regions::new(self.failing)
    }
}

// Whether the region of this finding was passed.
fn is_passed(finding: Finding) -> bool
    ensures { result ≡ Findings.is_passed finding }
{
    match finding {
        Finding::Waiting => false,
        Finding::Clean | Finding::Damaged => true,
    }
}

// Whether each region of these findings was passed.
fn are_passed(findings: &[Finding]) -> bool
    ensures { result ≡ list_all Findings.is_passed findings.now }
{
    findings.iter().all(|finding| is_passed(*finding))
}

// The memory of an audit of so many regions.
fn make_room(alloc: Global, count: u32) -> Result<(Vec<Finding>, Vec<u32>), AllocError>
    ensures findings { IfOk result (λ room. room.0.items ≡ replicate count Waiting) }
    ensures failing { IfOk result (λ room. length room.1.items ≡ count) }
{
    let findings = vec![in alloc; Finding::Waiting; count as usize]?;
    let failing = vec![in alloc; 0; count as usize]?;
    Ok((findings, failing))
}

// Notes the number of a region behind the first `found` ones, if it is damaged. Answers how many there are then.
fn add_if_damaged(finding: Finding, number: u32, failing: &mut [u32], found: usize) -> usize
    requires { found < length failing.old }
    ensures front { take result failing.new ≡ take found failing.old ++ damaged_from number (finding ∷ []) }
    ensures bound { result ≤ found + 1 }
{
    match finding {
        Finding::Damaged => {
            failing[found] = number;
            found + 1
        }
        _ => found,
    }
}

// Writes the numbers of the damaged regions to the front, ascending. Answers how many there are.
#[tactic(auto, using(crate::proofs::Collected::from_more))]
fn gather(findings: &[Finding], failing: &mut [u32]) -> usize
    requires room { length failing.old ≡ length findings.now }
    requires few { length findings.now < 2 ^ 32 }
    ensures front { take result failing.new ≡ damaged findings.now }
    ensures bound { result ≤ length failing.new }
{
    let mut found: usize = 0;
    for number in 0..findings.len() {
        found = add_if_damaged(findings[number], number as u32, failing, found);
    }
    found
}

// The numbers of the damaged regions, ascending, in a vector of as many numbers as there are findings.
fn collect(findings: &[Finding], failing: Vec<u32>) -> Vec<u32>
    requires room { length failing.items ≡ length findings.now }
    requires few { length findings.now < 2 ^ 32 }
    ensures { result.items ≡ damaged findings.now }
{
    let mut failing = failing;
    let found = gather(findings, &mut failing);
    failing.truncate(found);
    failing
}

// Logs that an audit found no damage.
fn log_clean(system: &mut System, begin: u64) -> Result<Receipt, SystemError>
    ensures ok { OnOk result (system.new ≡ record system.old { state = audit_ended system.old.state begin [] }) }
    ensures err { OnErr result (system.new ≡ system.old) }
    ensures runs { OnOk result (system.old.state.stop ≡ None) }
    ensures refused { IfSome (stop_refusal system.old.state) (λ e. result ≡ Err e) }
    ensures memory { stop_refusal system.old.state ≡ None → IfErr result (λ e. e ≡ Memory) }
{
    system.note(&Record::AuditClean { begin })
}

// Takes the regions that the end of an audit names out of its record, and puts others there.
fn take_regions(entry: &mut Record, others: Regions) -> Regions
    requires { (b : ℕ) × (rs : List ℕ) × (entry.old ≡ AuditFail b rs) }
    ensures { (b : ℕ) × (entry.old ≡ AuditFail b result) }
{
    match entry {
        Record::AuditFail { regions, .. } => mem::replace(regions, others),
        _ => unreachable!(),
    }
}

// Logs the end of an audit that found these regions. Answers them again.
fn log_end(
    system: &mut System,
    begin: u64,
    failing: Vec<u32>,
    spare: Regions,
) -> Result<Vec<u32>, SystemError>
    requires { CanBeSpelled (audit_record begin failing.items) }
    ensures same { IfOk result (λ regions. regions.items ≡ failing.items) }
    ensures ok { OnOk result (system.new ≡ record system.old { state = audit_ended system.old.state begin failing.items }) }
    ensures err { OnErr result (system.new ≡ system.old) }
    ensures runs { OnOk result (system.old.state.stop ≡ None) }
    ensures refused { IfSome (stop_refusal system.old.state) (λ e. result ≡ Err e) }
    ensures memory { stop_refusal system.old.state ≡ None → IfErr result (λ e. e ≡ Memory) }
{
    if failing.is_empty() {
        return match log_clean(system, begin) {
            Ok(_) => Ok(failing),
            Err(error) => Err(error),
        };
    }
    let regions = Regions::new(failing);
    let mut entry = Record::AuditFail { begin, regions };
    match system.note(&entry) {
        Ok(_) => {}
        Err(error) => return Err(error),
    }
    Ok(take_regions(&mut entry, spare).into_vec())
}

impl Audit {
    /// Logs that an audit begins, of all regions of the system. It takes memory for all passes, and for its record.
    /// Refused as any begin of an audit: where the system has stopped, where the log is full by the limit of audits, and
    /// for want of memory; then nothing is logged. The numbers of records and of regions fit their fields.
    pub fn begin(alloc: Global, system: &mut System) -> Result<Self, SystemError>
        ensures audit { IfOk result (λ audit. audit ≡ record { begin = system.old.state.records; findings = replicate (regions_of system.old.state.sizes) Waiting }) }
        ensures ok { OnOk result (system.new ≡ record system.old { state = audit_begun system.old.state }) }
        ensures err { OnErr result (system.new ≡ system.old) }
        ensures refused { IfSome (audit_refusal system.old.state AuditBegin) (λ e. result ≡ Err e) }
        ensures room { OnOk result (audit_refusal system.old.state AuditBegin ≡ None) }
        ensures memory { audit_refusal system.old.state AuditBegin ≡ None → IfErr result (λ e. e ≡ Memory) }
        ensures number { system.old.state.records < 2 ^ 64 }
        ensures count { regions_of system.old.state.sizes < 2 ^ 32 }
    {
        let begin = system.records();
        let count = system.geometry().regions();
        if let Some(error) = system.audit_refusal() {
            return Err(error);
        }
        let Ok((findings, failing)) = make_room(alloc, count) else {
            return Err(SystemError::OutOfMemory);
        };
        system.note(&Record::AuditBegin)?;
        Ok(Audit {
            begin,
            findings,
            failing,
            spare: Regions::new(Vec::new(alloc)),
        })
    }

    /// The number of the record with which it began.
    pub fn number(&self) -> u64
        ensures { result ≡ self.now.begin }
    {
        self.begin
    }

    /// Whether the region with this number is one of its regions and wasn't passed yet.
    pub fn waits(&self, number: u32) -> bool
        ensures waits { result ≡ true → slice_get self.now.findings number ≡ Some Waiting }
        ensures told { slice_get self.now.findings number ≡ Some Waiting → result ≡ true }
        ensures few { length self.now.findings < 2 ^ 32 }
    {
        matches!(self.findings.get(number as usize), Some(Finding::Waiting))
    }

    /// Whether each region was passed.
    pub fn has_passed_all(&self) -> bool
        ensures all { result ≡ true → AllPassed self.now.findings }
        ensures told { AllPassed self.now.findings → result ≡ true }
    {
        are_passed(&self.findings)
    }

    /// Compares the words of the region with this number with its codeword. It takes no memory.
    pub fn pass(&mut self, number: u32, region: &mut Region)
        requires { slice_get self.old.findings number ≡ Some Waiting }
        ensures found { self.new ≡ record self.old { findings = slice_set self.old.findings number (finding_of region.old.stray) } }
        ensures region { region.new ≡ checked region.old }
    {
        let right = region.check() == 0;
        self.found(number, right);
    }

    /// Takes over what a pass made elsewhere found of the region with this number: whether its words had the parity of its
    /// codeword. It takes no memory.
    pub fn found(&mut self, number: u32, right: bool)
        requires { slice_get self.old.findings number ≡ Some Waiting }
        ensures { self.new ≡ record self.old { findings = slice_set self.old.findings number (finding_if right) } }
    {
        self.findings[number as usize] = if right {
            Finding::Clean
        } else {
            Finding::Damaged
        };
    }

    /// Logs what was found: that all regions are clean, or which are not, and then the system stops. It takes memory for
    /// its record. Refused where the system has stopped, or for want of memory; then nothing is logged.
    pub fn end(self, system: &mut System) -> Result<Verdict, SystemError>
        requires { AllPassed self.findings }
        ensures verdict { IfOk result (λ verdict. verdict ≡ record { begin = self.begin; failing = damaged self.findings }) }
        ensures ok { OnOk result (system.new ≡ record system.old { state = audit_ended system.old.state self.begin (damaged self.findings) }) }
        ensures err { OnErr result (system.new ≡ system.old) }
        ensures runs { OnOk result (system.old.state.stop ≡ None) }
        ensures refused { IfSome (stop_refusal system.old.state) (λ e. result ≡ Err e) }
        ensures memory { stop_refusal system.old.state ≡ None → IfErr result (λ e. e ≡ Memory) }
    {
        let Audit {
            begin,
            findings,
            failing,
            spare,
        } = self;
        let failing = collect(&findings, failing);
        let failing = log_end(system, begin, failing, spare)?;
        Ok(Verdict { begin, failing })
    }
}
