//! The system.
ghost use Rattle.std.specs.Prelude.{not, true, false, IsSomeAnd, Option as OptionOf, ◌≡◌, ◌≢◌, ◌≤◌, ◌<◌, ◌+◌, ◌^◌, ◌++◌, ◌-◌, [], ◌∷◌, Some, None, Err, length, drop, filter, map, OnOk, OnErr, IfOk, IfErr, IfSome, IsSome, IsOk, ℕ};
ghost use Rattle.dali_record.specs.declared.records.Record.TheVariants.{AuditBegin, Begin, Forward, Back, Done, Solo};
ghost use Rattle.dali_record.specs.Spelling.{CanBeSpelled, IsBlock, IsUndo, is_solo, record_length};
ghost use Rattle.dali_record.specs.Legal.{dead_of};
ghost use Rattle.dali_log.specs.Log.{body_bytes};
ghost use Rattle.dali_region.specs.State.{touched};
ghost use Rattle.dali_att.specs.Table.{undos_at, last_of};
ghost use Rattle.dali_locks.specs.Locks.{IsAnswer};
ghost use Rattle.dali_locks.specs.declared.mode.LockAnswer.{LockAnswer as AnswerOf};
ghost use Rattle.dali_runs.specs.State.{row_of, state_of, lock_of};
ghost use Rattle.dali_att.specs.declared.state.State.TheVariants.{Dead, Cleaning, Committed};
ghost use Rattle.dali_runs.specs.Loads.{new_system};
ghost use Rattle.dali_runs.specs.Steps.{begun, op_logged, back_logged, solo_logged, done_logged, commit_logged, ended_logged, taken, store_stopped, in_checkpoint, in_state};
ghost use Rattle.dali_runs.specs.Keeps.{HasRoom, moves_to};
ghost use Rattle.dali_runs.specs.Regions.{IsOpen};
ghost use Rattle.dali_system.specs.Refused.{refusal, stop_refusal, room_of, stop_of};
ghost use Rattle.dali_system.specs.Receipts.{GivesReceipt};
ghost use Rattle.dali_system.specs.Rows.{AreRows};
ghost use Rattle.dali_system.specs.Served.{solo_room};
ghost use Rattle.std.specs.FinMap as map;
ghost use Rattle.dali_system.specs.Served;
ghost use Rattle.dali_system.specs.Promised.{promised_to, used};
ghost use Rattle.dali_system.specs.Audits.{is_audit, audit_noted, audit_refusal};
ghost use Rattle.dali_system.specs.Asked.{after_request};
ghost use Rattle.dali_system.specs.declared.error.SystemError.TheVariants.{OutOfMemory as Memory};

use crate::error::{NotDead, SystemError};
use crate::journal::Journal;
use crate::past::Past;
use crate::undos;
use dali_att::{Att, State};
use dali_bytes::OutOfMemory;
use dali_geometry::Geometry;
use dali_locks::{LockAnswer, LockTable, Mode};
use dali_log::Frame;
use dali_record::{
    Answer, Block, Call, Pending, Record, length, op_record_length, solo_record_length,
};
use dali_region::{Receipt, Region};
use dali_runs::{Cause, Refusal};
use std::alloc::Global;
use std::marker::Model;

// The bytes of a commit's and of an end's record, of the longest record of a solo, and what the begin of an audit may
// use beyond the limit.
const END_ROOM: usize = 9;

const SOLO_ROOM: usize = 1017;

const AUDIT_ROOM: u64 = 1 << 20;

/// The log's end with the records that wait for a flush, the table of running transactions, the locks, and why the engine
/// stopped, if it did: what a main-memory storage manager keeps beside its regions (Bohannon et al., TKDE 2003). Each
/// call that logs leaves the system as the step of a run does that its clause names. Contracts see all records since the load,
/// and all requests that were refused; neither takes memory.
#[derive(Drop)]
pub struct System {
    geometry: Geometry,
    first: u64,
    journal: Journal,
    table: Att<Pending>,
    locks: LockTable,
    refusals: Past<Refusal>,
    end: u64,
    next: u64,
    limit: u64,
    stop: Option<Cause>,
    checking: bool,
}

impl Model for System {
    ghost use Rattle.dali_system.specs.Served.{Served, served_code};
    ghost use Rattle.dali_system.specs.Fields.{served_of, IsBounded};

    ghost Value = { Served };

    ghost coded = { served_code };

    ghost view = { served_of };

    ghost invariant = { IsBounded };
}

// Why no record of this length that uses room may follow.
fn room(stop: Option<Cause>, end: u64, limit: u64, length: u64) -> Result<(), SystemError>
    ensures refused { IfSome (room_of stop end limit length) (λ e. result ≡ Err e) }
    ensures ok { room_of stop end limit length ≡ None → IsOk result }
    ensures has_room { OnOk result ((stop ≡ None) × (end + length ≤ limit)) }
{
    if let Some(cause) = stop {
        return Err(SystemError::Stopped { cause });
    }
    if limit < length || limit - length < end {
        return Err(SystemError::LogFull { end, limit });
    }
    Ok(())
}

// What is promised for a commit, the solos of so many removals, and the end.
fn promised_for(removals: usize) -> Result<usize, OutOfMemory>
    ensures { IfOk result (λ bytes. bytes ≡ Served.promised_for removals) }
{
    removals
        .checked_mul(SOLO_ROOM)
        .and_then(|solos| solos.checked_add(2 * END_ROOM))
        .ok_or(OutOfMemory)
}

// Why no record may follow.
fn running(stop: Option<Cause>) -> Result<(), SystemError>
    ensures refused { IfSome (stop_of stop) (λ e. result ≡ Err e) }
    ensures ok { stop_of stop ≡ None → IsOk result }
    ensures runs { OnOk result (stop ≡ None) }
{
    match stop {
        Some(cause) => Err(SystemError::Stopped { cause }),
        None => Ok(()),
    }
}

impl System {
    /// The system over a log of so many records that weigh so much, with this next transaction number and limit. It
    /// takes memory for an empty frame.
    pub fn new(
        alloc: Global,
        geometry: Geometry,
        first: u64,
        next: u64,
        end: u64,
        limit: u64,
    ) -> Result<Self, OutOfMemory>
        requires first { first < 2 ^ 63 }
        requires next { next < 2 ^ 63 }
        requires end { end < 2 ^ 63 }
        requires limit { limit ≤ 268435456 }
        ensures { IfOk result (λ system. system ≡ record { state = new_system geometry first next end limit; promised = map.empty }) }
    {
        Ok(System {
            geometry,
            first,
            journal: Journal::new(alloc)?,
            table: Att::new(alloc),
            locks: LockTable::new(alloc),
            refusals: Past::new(),
            end,
            next,
            limit,
            stop: None,
            checking: false,
        })
    }

    /// The sizes of the database.
    pub fn geometry(&self) -> Geometry
        ensures { result ≡ self.now.state.sizes }
    {
        self.geometry
    }

    /// How many records the log has, those before the load among them.
    pub fn records(&self) -> u64
        ensures { result ≡ self.now.state.records }
    {
        self.first + self.journal.len()
    }

    /// How many records the log had when the system was made. With those since it has as many as it counts.
    pub fn first(&self) -> u64
        ensures first { result ≡ self.now.state.first }
        ensures counted { self.now.state.records ≡ self.now.state.first + length self.now.state.since }
    {
        self.first
    }

    /// The number of the next transaction.
    pub fn next(&self) -> u64
        ensures { result ≡ self.now.state.next }
    {
        self.next
    }

    /// The bytes of all records of the log, those before the load among them.
    pub fn end(&self) -> u64
        ensures { result ≡ self.now.state.end }
    {
        self.end
    }

    /// Why the engine stopped, if it did.
    pub fn stopped(&self) -> Option<Cause>
        ensures { result ≡ self.now.state.stop }
    {
        self.stop
    }

    /// The running transactions with what takes each of them back.
    pub fn table(&self) -> &Att<Pending>
        ensures table { result.now ≡ self.now.state.table }
        ensures rows { AreRows self.now.state.next self.now.state.table }
    {
        &self.table
    }

    /// Begins a transaction, and answers its number. Refused as any record that uses room; it takes memory for its row
    /// and its record.
    pub fn begin(&mut self) -> Result<(u64, Receipt), SystemError>
        ensures ok { OnOk result (self.new ≡ record self.old { state = begun self.old.state }) }
        ensures number { IfOk result (λ given. (given.0 ≡ self.old.state.next) × (given.1.number ≡ self.old.state.records)) }
        ensures room { OnOk result (HasRoom self.old.state (Begin self.old.state.next)) }
        ensures err { OnErr result (self.new ≡ self.old) }
        ensures refused { IfSome (refusal self.old.state 9) (λ e. result ≡ Err e) }
        ensures memory { refusal self.old.state 9 ≡ None → IfErr result (λ e. e ≡ Memory) }
    {
        room(self.stop, self.end, self.limit, 9)?;
        let number = self.records();
        let txn = self.next;
        self.table.begin(txn)?;
        if self.journal.push(&Record::Begin { txn }).is_err() {
            self.table.end(txn);
            return Err(SystemError::OutOfMemory);
        }
        self.end += 9;
        self.next += 1;
        Ok((txn, Receipt { number }))
    }

    /// Asks for a key in a mode. Contracts see which requests were answered Busy. Refused where the engine is stopped; it takes memory.
    pub fn request(&mut self, txn: u64, key: u64, mode: Mode) -> Result<LockAnswer, SystemError>
        ensures answer { IfOk result (IsAnswer self.old.state.locks txn key mode) }
        ensures ok { IfOk result (λ answer. self.new ≡ record self.old { state = after_request self.old.state txn key mode answer }) }
        ensures err { OnErr result (self.new ≡ self.old) }
        ensures refused { IfSome (stop_refusal self.old.state) (λ e. result ≡ Err e) }
        ensures memory { stop_refusal self.old.state ≡ None → IfErr result (λ e. e ≡ Memory) }
    {
        running(self.stop)?;
        let at = self.records();
        let answer = self.locks.request(txn, key, mode)?;
        if let LockAnswer::Busy { holder } = answer {
            self.refusals = self.refusals.and(&Refusal {
                txn,
                key,
                mode,
                holder,
                at,
            });
        }
        Ok(answer)
    }

    /// Logs an operation: the block is the region's open operation. The region is touched, and the undo is kept.
    /// Refused as any record that uses room; it takes memory for its record and the undo.
    pub fn commit_op(
        &mut self,
        region: &mut Region,
        txn: u64,
        block: &Block,
    ) -> Result<Receipt, SystemError>
        requires spelled { CanBeSpelled (Forward txn block.now) }
        requires running { IsSome (row_of self.old.state txn) }
        requires open { IsOpen region.old txn block.now }
        ensures ok { OnOk result ((self.new ≡ record self.old { state = op_logged self.old.state txn block.now }) × (region.new ≡ touched region.old)) }
        ensures number { IfOk result (λ receipt. receipt.number ≡ self.old.state.records) }
        ensures room { OnOk result (HasRoom self.old.state (Forward txn block.now)) }
        ensures err { OnErr result ((self.new ≡ self.old) × (region.new ≡ region.old)) }
        ensures refused { IfSome (refusal self.old.state (record_length (Forward txn block.now))) (λ e. result ≡ Err e) }
        ensures memory { refusal self.old.state (record_length (Forward txn block.now)) ≡ None → IfErr result (λ e. e ≡ Memory) }
    {
        let length = op_record_length(txn, block);
        room(self.stop, self.end, self.limit, length)?;
        let number = self.records();
        undos::keep(&mut self.table, txn, block)?;
        if self.journal.push_op(txn, block).is_err() {
            undos::forget(&mut self.table, txn, block);
            return Err(SystemError::OutOfMemory);
        }
        self.end += length;
        region.touch();
        Ok(Receipt { number })
    }

    /// Logs an operation that takes the last undo back. It uses no room; it takes memory for its record.
    pub fn back_op(
        &mut self,
        region: &mut Region,
        txn: u64,
        block: &Block,
    ) -> Result<Receipt, SystemError>
        requires spelled { CanBeSpelled (Back txn block.now) }
        requires open { IsOpen region.old txn block.now }
        ensures ok { OnOk result ((self.new ≡ record self.old { state = back_logged self.old.state txn block.now }) × (region.new ≡ touched region.old)) }
        ensures receipt { GivesReceipt self.old.state ((self.new ≡ self.old) × (region.new ≡ region.old)) result }
    {
        running(self.stop)?;
        let number = self.records();
        self.journal.push_back(txn, block)?;
        let _ = self.table.pop(txn);
        self.end += op_record_length(txn, block);
        region.touch();
        Ok(Receipt { number })
    }

    /// Logs the operation that frees what a committed transaction removed, under a number of its own. It uses no room;
    /// it takes memory only where fewer bytes are promised to the transaction than the longest such record has.
    pub fn solo_op(
        &mut self,
        region: &mut Region,
        parent: u64,
        block: &Block,
    ) -> Result<Receipt, SystemError>
        requires spelled { IsBlock block.now × (is_solo block.now.op ≡ true) }
        requires open { IsOpen region.old parent block.now }
        ensures ok { OnOk result ((self.new ≡ record { state = solo_logged self.old.state parent block.now; promised = used self.old.promised parent solo_room }) × (region.new ≡ touched region.old)) }
        ensures promised { stop_refusal self.old.state ≡ None → solo_room ≤ promised_to self.old.promised parent → IsOk result }
        ensures receipt { GivesReceipt self.old.state ((self.new ≡ self.old) × (region.new ≡ region.old)) result }
    {
        running(self.stop)?;
        let number = self.records();
        let length = solo_record_length(block);
        self.journal.push_solo(self.next, parent, block, SOLO_ROOM)?;
        self.end += length;
        self.next += 1;
        region.touch();
        Ok(Receipt { number })
    }

    /// Why an audit can't begin now, if so: the system has stopped, or the log is full.
    pub fn audit_refusal(&self) -> Option<SystemError>
        ensures { result ≡ audit_refusal self.now.state AuditBegin }
    {
        room(self.stop, self.end, self.limit + AUDIT_ROOM, 1).err()
    }

    /// Logs a record of an audit; one that failed stops the engine. The begin of an audit is refused as a record that
    /// uses room, but its limit is 1 MiB larger; the end of one uses no room. It takes memory for its record.
    pub fn note(&mut self, rec: &Record) -> Result<Receipt, SystemError>
        requires spelled { CanBeSpelled rec.now }
        requires audit { is_audit rec.now ≡ true }
        ensures ok { OnOk result (self.new ≡ record self.old { state = audit_noted self.old.state rec.now }) }
        ensures number { IfOk result (λ receipt. receipt.number ≡ self.old.state.records) }
        ensures err { OnErr result (self.new ≡ self.old) }
        ensures refused { IfSome (audit_refusal self.old.state rec.now) (λ e. result ≡ Err e) }
        ensures memory { audit_refusal self.old.state rec.now ≡ None → IfErr result (λ e. e ≡ Memory) }
    {
        match rec {
            Record::AuditBegin => room(self.stop, self.end, self.limit + AUDIT_ROOM, 1)?,
            _ => running(self.stop)?,
        }
        let number = self.records();
        let length = length(rec);
        self.journal.push(rec)?;
        self.end += length;
        if let Record::AuditFail { regions, .. } = rec {
            if let Some(region) = regions.as_slice().first() {
                self.stop = Some(Cause::Damage { region: *region });
            }
        }
        Ok(Receipt { number })
    }

    /// Logs the answer of a call. Refused as any record that uses room; it takes memory for its record.
    pub fn done(&mut self, txn: u64, call: &Call, answer: &Answer) -> Result<Receipt, SystemError>
        requires spelled { CanBeSpelled (Done txn call.now answer.now) }
        ensures ok { OnOk result (self.new ≡ record self.old { state = done_logged self.old.state txn call.now answer.now }) }
        ensures number { IfOk result (λ receipt. receipt.number ≡ self.old.state.records) }
        ensures room { OnOk result (HasRoom self.old.state (Done txn call.now answer.now)) }
        ensures err { OnErr result (self.new ≡ self.old) }
        ensures refused { IfSome (refusal self.old.state (record_length (Done txn call.now answer.now))) (λ e. result ≡ Err e) }
        ensures memory { refusal self.old.state (record_length (Done txn call.now answer.now)) ≡ None → IfErr result (λ e. e ≡ Memory) }
    {
        let rec = Record::Done {
            txn,
            call: *call,
            answer: *answer,
        };
        let length = length(&rec);
        room(self.stop, self.end, self.limit, length)?;
        let number = self.records();
        self.journal.push(&rec)?;
        self.end += length;
        Ok(Receipt { number })
    }

    /// The removals of a transaction, in the order of its list: what its solos free once it is committed. Memory is
    /// promised to it for its commit, these solos and its end: they take none then, whatever is logged in between. Asked
    /// again it promises for the removals that there are then, in place of what it promised. It takes memory for both.
    pub fn ready(&mut self, alloc: Global, txn: u64) -> Result<Vec<Pending>, SystemError>
        ensures removals { IfOk result (λ removed. removed.items ≡ dead_of (undos_at self.old.state.table txn)) }
        ensures ok { IfOk result (λ removed. self.new ≡ record self.old { promised = map.insert self.old.promised txn (Served.promised_for (length removed.items)) }) }
        ensures err { OnErr result (self.new ≡ self.old) }
        ensures refused { IfSome (stop_refusal self.old.state) (λ e. result ≡ Err e) }
        ensures memory { stop_refusal self.old.state ≡ None → IfErr result (λ e. e ≡ Memory) }
    {
        running(self.stop)?;
        let removed = undos::removals(alloc, self.table.undos(txn))?;
        self.journal.promise(txn, promised_for(removed.len())?)?;
        Ok(removed)
    }

    /// Logs the commit of a transaction, whose undos are gone from then on. It uses no room. Its record has 9 bytes: it
    /// takes memory only where fewer are promised to the transaction.
    pub fn commit(&mut self, txn: u64) -> Result<Receipt, SystemError>
        requires running { IsSome (row_of self.old.state txn) }
        ensures ok { OnOk result (self.new ≡ record { state = commit_logged self.old.state txn; promised = used self.old.promised txn 9 }) }
        ensures promised { stop_refusal self.old.state ≡ None → 9 ≤ promised_to self.old.promised txn → IsOk result }
        ensures receipt { GivesReceipt self.old.state (self.new ≡ self.old) result }
    {
        running(self.stop)?;
        let number = self.records();
        self.journal
            .push_from(&Record::Commit { txn }, txn, END_ROOM)?;
        self.table.clear(txn);
        self.table.set_state(txn, State::Committed);
        self.end += 9;
        Ok(Receipt { number })
    }

    /// Logs that a transaction has ended: its row and its locks go, and what is still promised to it. It uses no room;
    /// it takes memory only where fewer than the record's 9 bytes are promised to the transaction.
    pub fn ended(&mut self, txn: u64) -> Result<Receipt, SystemError>
        ensures ok { OnOk result (self.new ≡ record { state = ended_logged self.old.state txn; promised = map.remove self.old.promised txn }) }
        ensures promised { stop_refusal self.old.state ≡ None → 9 ≤ promised_to self.old.promised txn → IsOk result }
        ensures receipt { GivesReceipt self.old.state (self.new ≡ self.old) result }
    {
        running(self.stop)?;
        let number = self.records();
        self.journal.push_last(&Record::Ended { txn }, txn)?;
        self.table.end(txn);
        self.locks.release_all(txn);
        self.end += 9;
        Ok(Receipt { number })
    }

    /// The records that aren't flushed, as a batch.
    pub fn frame(&self) -> &Frame
        ensures body { result.now.body ≡ body_bytes (drop self.now.state.taken self.now.state.since) }
        ensures records { result.now.records ≡ length (drop self.now.state.taken self.now.state.since) }
    {
        self.journal.frame()
    }

    /// All records are flushed.
    pub fn flushed(&mut self)
        ensures { self.new ≡ record self.old { state = taken self.old.state } }
    {
        self.journal.flushed();
    }

    /// The store failed. A cause that stands already stays.
    pub fn stop(&mut self)
        ensures { self.new ≡ record self.old { state = store_stopped self.old.state } }
    {
        if self.stop.is_none() {
            self.stop = Some(Cause::Store);
        }
    }

    /// The last undo of a transaction, if it has one.
    pub fn last_undo(&self, txn: u64) -> Option<Pending>
        ensures last { result ≡ last_of (undos_at self.now.state.table txn) }
        ensures undoes { IfSome result (λ u. IsUndo u.undo) }
    {
        self.table.last(txn).copied()
    }

    /// The state of a transaction of the table.
    pub fn state(&self, txn: u64) -> Option<State>
        ensures { result ≡ state_of self.now.state txn }
    {
        self.table.state(txn)
    }

    /// The mode in which a transaction holds a key, if it does.
    pub fn lock(&self, txn: u64, key: u64) -> Option<Mode>
        ensures { result ≡ lock_of self.now.state txn key }
    {
        self.locks.holds(txn, key)
    }

    /// Sets the checkpoint's flag; false exactly where it was set.
    pub fn start_copy(&mut self) -> bool
        ensures was { result ≡ not self.old.state.checking }
        ensures set { self.new ≡ record self.old { state = in_checkpoint self.old.state true } }
    {
        let was = self.checking;
        self.checking = true;
        !was
    }

    /// Clears the checkpoint's flag.
    pub fn end_copy(&mut self)
        ensures { self.new ≡ record self.old { state = in_checkpoint self.old.state false } }
    {
        self.checking = false;
    }

    /// The client of a transaction died, in an operation on this region or in none; or who had claimed it gives the
    /// claim back.
    pub fn mark_dead(&mut self, txn: u64, latched: Option<u32>)
        requires moves { IsSomeAnd (state_of self.old.state txn) (λ s. moves_to s (Dead latched) ≡ true) }
        ensures { self.new ≡ record self.old { state = in_state self.old.state txn (Dead latched) } }
    {
        self.table.set_state(txn, State::Dead { latched });
    }

    /// Claims a dead transaction, and answers the region that is still latched for it.
    pub fn claim(&mut self, txn: u64) -> Result<Option<u32>, NotDead>
        ensures ok { IfOk result (λ latched. (state_of self.old.state txn ≡ Some (Dead latched)) × (self.new ≡ record self.old { state = in_state self.old.state txn (Cleaning latched) })) }
        ensures err { OnErr result (self.new ≡ self.old) }
        ensures not_dead { OnErr result ((latched : OptionOf ℕ) → state_of self.old.state txn ≡ Some (Dead latched) → ⊥) }
    {
        match self.table.state(txn) {
            Some(State::Dead { latched }) => {
                self.table.set_state(txn, State::Cleaning { latched });
                Ok(latched)
            }
            _ => Err(NotDead),
        }
    }

    /// Takes the records that aren't taken yet as a batch, to be flushed. Unchanged where memory for the next one is
    /// refused.
    pub fn take_frame(&mut self, alloc: Global) -> Result<Frame, OutOfMemory>
        ensures frame { IfOk result (λ frame. (frame.body ≡ body_bytes (drop self.old.state.taken self.old.state.since)) × (frame.records ≡ length (drop self.old.state.taken self.old.state.since))) }
        ensures ok { OnOk result (self.new ≡ record self.old { state = taken self.old.state }) }
        ensures err { OnErr result (self.new ≡ self.old) }
    {
        self.journal.take_frame(alloc)
    }
}
