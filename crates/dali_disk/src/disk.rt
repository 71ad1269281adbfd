//! One file: what reads give, what the last sync kept, and what was written since.
ghost use Rattle.std.specs.Prelude.{◌≡◌, ◌≤◌, ◌+◌, ◌-◌, List, [], ◌∷◌, ◌++◌, length, take, drop, OnOk, OnErr, vec_capacity, not, ◌==◌};
ghost use Rattle.dali_disk.specs.State.{begun_with, wrote, kept, dropped, waits, cut_by, mixed, mixed_from, byte_after, in_spans, written, Agree, IsRoomy};
ghost use Rattle.dali_disk.specs.declared.disk.Span.{Span};
ghost use Rattle.dali_disk.specs.Sound.{IsSound};

use std::alloc::{AllocError, Global};
use std::marker::Model;

// A write may not make a file this long.
const LIMIT: usize = 1 << 62;

/// A range that was written.
#[derive(Clone, Copy, Drop)]
pub struct Span {
    /// Its first place.
    pub at: usize,
    /// How many bytes it has.
    pub count: usize,
}

/// One file. Until the first write what it began with is both what reads give and what the last sync kept. It holds its
/// bytes twice from then on, so that neither a sync nor a crash takes memory.
#[derive(Drop)]
pub struct Disk {
    start: Vec<u8>,
    copied: bool,
    seen: Vec<u8>,
    synced: Vec<u8>,
    spans: Vec<Span>,
}

impl Model for Disk {
    ghost use Rattle.std.specs.Prelude.{length, vec_capacity};
    ghost use Rattle.dali_disk.specs.State.{State, state_of, IsRoomy};

    ghost Value = { State };

    ghost view = { λ d. state_of d.copied d.start.items d.seen.items d.synced.items d.spans.items };

    ghost invariant = { λ d. IsRoomy (length d.seen.items) (length d.synced.items) (vec_capacity d.seen) (vec_capacity d.synced) };
}

// Puts other bytes in the place of those in a Vec that has room for them.
fn copy_into(to: &mut Vec<u8>, from: &[u8])
    requires { length from.now ≤ vec_capacity to.old }
    ensures items { to.new.items ≡ from.now }
    ensures capacity { vec_capacity to.old ≤ vec_capacity to.new }
{
    to.clear();
    let _ = to.extend_from_slice(from);
}

fn is_in(spans: &[Span], at: usize) -> bool
    ensures { result ≡ in_spans spans.now at }
{
    let mut rest = spans;
    while let [span, after @ ..] = rest {
        if at >= span.at && at - span.at < span.count {
            return true;
        }
        rest = after;
    }
    false
}

fn byte_at(choice: u32, file: usize, synced: &[u8], spans: &[Span], at: usize, seen: u8) -> u8
    ensures { result ≡ byte_after choice file synced.now spans.now at seen }
{
    if at < synced.len() && !is_in(spans, at) {
        return seen;
    }
    match (31 * choice as u128 + 17 * file as u128 + 7 * at as u128) % 3 {
        0 if at < synced.len() => synced[at],
        0 => 0,
        1 => seen,
        _ => ((choice as u128 + at as u128) % 256) as u8,
    }
}

fn mix_all(choice: u32, file: usize, synced: &[u8], spans: &[Span], seen: &mut [u8])
    ensures { seen.new ≡ mixed_from choice file synced.now spans.now 0 seen.old }
{
    for at in 0..seen.len() {
        let byte = seen[at];
        seen[at] = byte_at(choice, file, synced, spans, at, byte);
    }
}

// Copies the bytes from a place up to another one.
fn copy_range(to: &mut Vec<u8>, from: &[u8], at: usize, end: usize)
    requires order { at ≤ end }
    requires to { end ≤ length to.old.items }
    requires from { end ≤ length from.now }
    ensures items { to.new.items ≡ written at (take (end - at) (drop at from.now)) to.old.items }
    ensures capacity { vec_capacity to.new ≡ vec_capacity to.old }
{
    to[at..end].copy_from_slice(&from[at..end]);
}

// Brings one range up to what reads give, up to the old end.
fn keep_span(seen: &[u8], synced: &mut Vec<u8>, old: usize, span: Span)
    requires size { length synced.old.items ≡ length seen.now }
    requires old { old ≤ length seen.now }
    ensures size { length synced.new.items ≡ length seen.now }
    ensures agree { (rest : List Span) → Agree old (span ∷ rest) synced.old.items seen.now → Agree old rest synced.new.items seen.now }
    ensures capacity { vec_capacity synced.new ≡ vec_capacity synced.old }
{
    let end = span.at.saturating_add(span.count).min(old);
    if span.at < end {
        copy_range(synced, seen, span.at, end);
    }
}

// Brings what the last sync kept up to what reads give, range by range.
fn keep_spans(seen: &[u8], synced: &mut Vec<u8>, spans: &[Span])
    requires room { length seen.now ≤ vec_capacity synced.old }
    requires longer { length synced.old.items ≤ length seen.now }
    requires agree { Agree (length synced.old.items) spans.now synced.old.items seen.now }
    ensures items { synced.new.items ≡ seen.now }
    ensures capacity { vec_capacity synced.old ≤ vec_capacity synced.new }
{
    let old = synced.len();
    let _ = synced.extend_from_slice(&seen[old..]);
    for number in 0..spans.len() {
        keep_span(seen, synced, old, spans[number]);
    }
}

// Writes to a file's copies. Their items are unchanged where memory is refused.
fn put(
    seen: &mut Vec<u8>,
    synced: &mut Vec<u8>,
    spans: &mut Vec<Span>,
    at: usize,
    bytes: &[u8],
) -> Result<(), AllocError>
    requires place { at ≤ length seen.old.items }
    requires room { IsRoomy (length seen.old.items) (length synced.old.items) (vec_capacity seen.old) (vec_capacity synced.old) }
    ensures seen { OnOk result (seen.new.items ≡ written at bytes.now seen.old.items) }
    ensures spans { OnOk result (spans.new.items ≡ spans.old.items ++ record { at = at; count = length bytes.now } ∷ []) }
    ensures synced { synced.new.items ≡ synced.old.items }
    ensures seen_err { OnErr result (seen.new.items ≡ seen.old.items) }
    ensures spans_err { OnErr result (spans.new.items ≡ spans.old.items) }
    ensures room { IsRoomy (length seen.new.items) (length synced.new.items) (vec_capacity seen.new) (vec_capacity synced.new) }
{
    let behind = seen.len() - at;
    if at >= LIMIT || bytes.len() >= LIMIT - at {
        return Err(AllocError);
    }
    let over = bytes.len().min(behind);
    spans.reserve(1)?;
    seen.reserve(bytes.len() - over)?;
    let more = (at + bytes.len()).max(seen.len()) - synced.len();
    synced.reserve(more)?;
    seen[at..at + over].copy_from_slice(&bytes[..over]);
    let _ = seen.extend_from_slice(&bytes[over..]);
    spans.push_reserved(Span {
        at,
        count: bytes.len(),
    });
    Ok(())
}

impl Disk {
    /// A file that begins with these bytes, which count as synced.
    pub fn new(alloc: Global, start: Vec<u8>) -> Self
        ensures { result ≡ begun_with start.items }
    {
        Disk {
            start,
            copied: false,
            seen: Vec::new(alloc),
            synced: Vec::new(alloc),
            spans: Vec::new(alloc),
        }
    }

    /// What reads give.
    pub fn bytes(&self) -> &[u8]
        ensures { result.now ≡ self.now.seen }
    {
        if self.copied { &self.seen } else { &self.start }
    }

    /// Whether something was written since the last sync.
    pub fn is_pending(&self) -> bool
        ensures { result ≡ not (waits self.now == 0) }
    {
        self.copied && !self.spans.is_empty()
    }

    /// Writes over what is there, and past the end. A write past 2^62 bytes counts as refused memory. Unchanged where
    /// memory is refused.
    pub fn write(&mut self, alloc: Global, at: usize, bytes: &[u8]) -> Result<(), AllocError>
        requires { at ≤ length self.old.seen }
        ensures ok { OnOk result (self.new ≡ wrote at bytes.now self.old) }
        ensures err { OnErr result (self.new ≡ self.old) }
    {
        if self.copied {
            return put(&mut self.seen, &mut self.synced, &mut self.spans, at, bytes);
        }
        let mut seen = self.start.to_vec(alloc)?;
        let mut synced = self.start.to_vec(alloc)?;
        let mut spans = Vec::new(alloc);
        put(&mut seen, &mut synced, &mut spans, at, bytes)?;
        self.seen = seen;
        self.synced = synced;
        self.spans = spans;
        self.copied = true;
        Ok(())
    }

    /// Keeps what was written. Takes no memory.
    pub fn sync(&mut self)
        requires { IsSound self.old }
        ensures { self.new ≡ kept self.old }
    {
        if self.copied {
            keep_spans(&self.seen, &mut self.synced, &self.spans);
            self.spans.clear();
        }
    }

    // Drops what was written since the last sync.
    fn undo(&mut self)
        ensures { self.new ≡ dropped self.old }
    {
        if self.copied {
            copy_into(&mut self.seen, &self.synced);
            self.spans.clear();
        }
    }

    // Mixes what was written with what was there and with other bytes.
    fn mix(&mut self, choice: u32, file: usize)
        ensures { self.new ≡ mixed choice file self.old }
    {
        if self.copied {
            mix_all(choice, file, &self.synced, &self.spans, &mut self.seen);
            copy_into(&mut self.synced, &self.seen);
            self.spans.clear();
        }
    }

    /// A crash: choice 0 keeps what was written since the last sync, 1 drops it, and every other choice mixes it by the
    /// file's number. Takes no memory.
    pub fn cut(&mut self, choice: u32, file: usize)
        requires { IsSound self.old }
        ensures { self.new ≡ cut_by choice file self.old }
    {
        match choice {
            0 => self.sync(),
            1 => self.undo(),
            _ => self.mix(choice, file),
        }
    }
}
