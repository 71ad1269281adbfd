//! How far a long run is, in a line on standard error that later ones replace, only where that is a terminal.
ghost use Rattle.std.specs.Prelude.{◌≡◌, ◌≤◌, ◌<◌, ◌+◌, ◌*◌, ◌^◌, ℕ, IfSome, IfNone};
ghost use Rattle.dali_console.specs.Marks.{percent_of};

use std::fmt::Display;
use std::io::{IsTerminal, Print};
use std::sync::atomic::{AtomicBool, AtomicU64, Ordering};

/// How many KiB of the log lie between two marks.
const STEP: u64 = 64;

/// Takes a line away, which is no longer than these blanks.
const CLEAR: &str =
    "\r                                                                            \r";

/// Stands for a length that isn't known.
const UNKNOWN: u64 = u64::MAX;

// The number of the last mark behind `at` that so many bytes from there reach. Marks stand at each 64 KiB.
fn mark_reached(at: u64, length: u64) -> Option<u64>
    ensures reached { IfSome result (λ n. (at < n * 65536) × (n * 65536 ≤ at + length) × (at + length < (n + 1) * 65536)) }
    ensures none { IfNone result (at + length < 2 ^ 64 → (n : ℕ) → at < n * 65536 → n * 65536 ≤ at + length → ⊥) }
{
    let reached = at.checked_add(length)? / (1024 * STEP);
    if at / (1024 * STEP) < reached {
        Some(reached)
    } else {
        None
    }
}

// How much of a whole a part is, in percent, rounded down. None where there is no whole.
fn percent(part: u64, whole: u64) -> Option<u128>
    ensures { result ≡ percent_of part whole }
{
    (100 * part as u128).checked_div(whole as u128)
}

/// Tells how far the log is read or written, once it is past the first mark, and how much of it that is where its length is
/// known. Nothing is told where the stream is no terminal, and a failure of the stream is ignored.
#[derive(Drop)]
pub struct Progress<E: Print + IsTerminal + Drop> {
    errors: E,
    length: AtomicU64,
    is_shown: AtomicBool,
}

impl<E: Print + IsTerminal + Drop> Progress<E> {
    /// Tells on this stream.
    pub fn new(errors: E) -> Self {
        Progress {
            errors,
            length: AtomicU64::new(UNKNOWN),
            is_shown: AtomicBool::new(false),
        }
    }

    // Shows a line in place of the last one.
    fn show<D: Display + Drop>(&self, line: D) {
        if self.errors.is_terminal() {
            self.is_shown.store(true, Ordering::SeqCst);
            let _ = self.errors.print(format_args!("{CLEAR}dali: {line}"));
        }
    }

    /// The log has this length from now on.
    pub fn has_length(&self, length: u64) {
        self.length.store(length, Ordering::SeqCst);
    }

    /// So many bytes of the log are about to be read from this place on.
    pub fn reads(&self, at: u64, count: u64) {
        let length = self.length.load(Ordering::SeqCst);
        let Some(mark) = mark_reached(at, count.min(length.saturating_sub(at))) else {
            return;
        };
        let place = mark.saturating_mul(STEP);
        let all = length / 1024;
        match percent(place, all) {
            Some(percent) if length != UNKNOWN => self.show(format_args!(
                "reading the log at {place} KiB of {all} KiB ({percent}%)"
            )),
            _ => self.show(format_args!("reading the log at {place} KiB")),
        }
    }

    /// So many bytes of the log are about to be written from this place on.
    pub fn writes(&self, at: u64, count: u64) {
        self.length
            .fetch_max(at.saturating_add(count), Ordering::SeqCst);
        let Some(mark) = mark_reached(at, count) else {
            return;
        };
        let place = mark.saturating_mul(STEP);
        self.show(format_args!("writing the log at {place} KiB"));
    }

    /// Takes the line away, where one is shown.
    pub fn clear(&self) {
        if self.is_shown.swap(false, Ordering::SeqCst) {
            let _ = self.errors.print(CLEAR);
        }
    }

    /// Tells a text, whether the stream is a terminal or not, behind the line that was taken away.
    pub fn tell<D: Display + Drop>(&self, text: D) {
        self.clear();
        let _ = self.errors.print(text);
    }
}
