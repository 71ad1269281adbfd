//! A source and a sink in memory.
ghost use Rattle.std.specs.Prelude.{◌≡◌, ◌≤◌, ◌<◌, ◌↔◌, ◌++◌, [], length, min, take, drop, IfOk, OnOk, OnErr, IsErr, Contains, Some};
ghost use Rattle.dali_store.specs.Faults.{HasCause, one_more};
ghost use Rattle.dali_streams.specs.Streams.{ReadsFrom, WritesTo};
ghost use Rattle.dali_streams.specs.Memory.{HasFailed};

use crate::{Failed, Sink, Source};
use std::alloc::Global;
use std::marker::Model;

// Counts a call, which fails where its number is among these.
fn count_call(calls: &mut u64, faults: &mut u64, failing: &[u64]) -> Result<(), Failed>
    ensures fails { IsErr result ↔ Contains failing.now calls.old }
    ensures calls { calls.new ≡ one_more calls.old }
    ensures failed { OnErr result (faults.new ≡ one_more faults.old) }
    ensures cause { HasCause faults.old faults.new result }
{
    let call = *calls;
    *calls = call.saturating_add(1);
    if failing.contains(&call) {
        *faults = faults.saturating_add(1);
        return Err(Failed);
    }
    Ok(())
}

/// Bytes in memory, read in pieces; chosen calls fail.
#[derive(Drop)]
pub struct MemorySource {
    bytes: Vec<u8>,
    at: usize,
    piece: usize,
    failing: Vec<u64>,
    calls: u64,
    faults: u64,
}

impl Model for MemorySource {
    ghost use Rattle.std.specs.Prelude.{◌≤◌, drop, length};
    ghost use Rattle.dali_streams.specs.Memory.{SourceHeld};

    ghost Value = { SourceHeld };

    ghost view = { λ s. record { left = drop s.at s.bytes.items; piece = s.piece; failing = s.failing.items; calls = s.calls; faults = s.faults } };

    ghost invariant = { λ s. (s.at ≤ length s.bytes.items) × (1 ≤ s.piece) };
}

impl MemorySource {
    /// A source of these bytes. A read gives at most `piece` of them, and the calls of `read` with the numbers in `failing`, from 0, fail.
    /// It takes no memory.
    pub fn new(bytes: Vec<u8>, piece: usize, failing: Vec<u64>) -> Self
        requires { 1 ≤ piece }
        ensures { result ≡ record { left = bytes.items; piece = piece; failing = failing.items; calls = 0; faults = 0 } }
    {
        MemorySource {
            bytes,
            at: 0,
            piece,
            failing,
            calls: 0,
            faults: 0,
        }
    }
}

impl Source for MemorySource {
    ghost left = { λ s. Some s.left };

    ghost faults = { λ s. s.faults };

    /// As many bytes as the buffer has room for, the piece allows and are left; exactly the calls with the chosen numbers fail.
    fn read(&mut self, into: &mut [u8]) -> Result<usize, Failed>
        ensures fails { IsErr result ↔ Contains self.old.failing self.old.calls }
        ensures exact { IfOk result (λ n. n ≡ min (length into.old) (min self.old.piece (length self.old.left))) }
        ensures ok { IfOk result (λ n. self.new ≡ record self.old { left = drop n self.old.left; calls = one_more self.old.calls }) }
        ensures failed { OnErr result (self.new ≡ record self.old { calls = one_more self.old.calls; faults = one_more self.old.faults }) }

        ensures count { IfOk result (λ n. n ≤ length into.old) }
        ensures bytes { IfOk result (λ n. ReadsFrom (Some self.old.left) n into.old into.new (Some self.new.left)) }
        ensures err { OnErr result (Some self.new.left ≡ Some self.old.left) }
        ensures cause { HasCause self.old.faults self.new.faults result }
    {
        count_call(&mut self.calls, &mut self.faults, &self.failing)?;
        let from = &self.bytes[self.at..];
        let count = into.len().min(self.piece.min(from.len()));
        into[..count].copy_from_slice(&from[..count]);
        self.at += count;
        Ok(count)
    }
}

/// Takes bytes into memory, in pieces; chosen calls fail.
#[derive(Drop)]
pub struct MemorySink {
    taken: Vec<u8>,
    piece: usize,
    failing: Vec<u64>,
    calls: u64,
    faults: u64,
    refused: u64,
}

impl Model for MemorySink {
    ghost use Rattle.std.specs.Prelude.{◌≤◌};
    ghost use Rattle.dali_streams.specs.Memory.{SinkHeld};

    ghost Value = { SinkHeld };

    ghost view = { λ s. record { taken = s.taken.items; piece = s.piece; failing = s.failing.items; calls = s.calls; faults = s.faults; refused = s.refused } };

    ghost invariant = { λ s. 1 ≤ s.piece };
}

impl MemorySink {
    /// An empty sink. A write takes at most `piece` bytes, and the calls of `write` with the numbers in `failing`, from 0, fail.
    /// It takes no memory.
    pub fn new(alloc: Global, piece: usize, failing: Vec<u64>) -> Self
        requires { 1 ≤ piece }
        ensures { result ≡ record { taken = []; piece = piece; failing = failing.items; calls = 0; faults = 0; refused = 0 } }
    {
        MemorySink {
            taken: Vec::new(alloc),
            piece,
            failing,
            calls: 0,
            faults: 0,
            refused: 0,
        }
    }

    /// The bytes that were taken.
    pub fn taken(&self) -> &[u8]
        ensures { result.now ≡ self.now.taken }
    {
        &self.taken
    }

    /// How many writes found no memory. Each of them counts as a fault too.
    pub fn refused(&self) -> u64
        ensures { result ≡ self.now.refused }
    {
        self.refused
    }
}

impl Sink for MemorySink {
    ghost taken = { λ s. Some s.taken };

    ghost faults = { λ s. s.faults };

    /// As many bytes as the piece allows. The calls with the chosen numbers fail, and those that find no memory, which alone are counted as refused.
    fn write(&mut self, bytes: &[u8]) -> Result<usize, Failed>
        ensures fails { Contains self.old.failing self.old.calls → IsErr result }
        ensures exact { IfOk result (λ n. n ≡ min (length bytes.now) self.old.piece) }
        ensures ok { IfOk result (λ n. self.new ≡ record self.old { taken = self.old.taken ++ take n bytes.now; calls = one_more self.old.calls }) }
        ensures failed { OnErr result (HasFailed self.old self.new) }

        ensures count { IfOk result (λ n. n ≤ length bytes.now) }
        ensures some { IfOk result (λ n. 0 < length bytes.now → 0 < n) }
        ensures bytes { IfOk result (λ n. WritesTo (Some self.old.taken) n bytes.now (Some self.new.taken)) }
        ensures err { OnErr result (Some self.new.taken ≡ Some self.old.taken) }
        ensures cause { HasCause self.old.faults self.new.faults result }
    {
        count_call(&mut self.calls, &mut self.faults, &self.failing)?;
        let count = bytes.len().min(self.piece);
        match self.taken.extend_from_slice(&bytes[..count]) {
            Ok(()) => Ok(count),
            Err(_) => {
                self.faults = self.faults.saturating_add(1);
                self.refused = self.refused.saturating_add(1);
                Err(Failed)
            }
        }
    }
}
