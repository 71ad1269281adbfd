//! What threads share: numbers that are drawn, and a history.
ghost use Rattle.std.specs.Prelude.{◌≡◌};

use crate::keys::mix;
use crate::timing::Timing;
use anyhow::{Context, Result, ensure};
use dali_claims::{ClaimSeat, Claims};
use dali_notes::{Anything, Note, Notes, Tells};
use std::alloc::Global;
use std::rt::Clock;
use std::time::Instant;

// So many draws. The result is the check number of what it drew.
fn draw_all(claims: &Claims, seat: &mut ClaimSeat, count: u32) -> u64
    requires { seat.old.table ≡ claims.now.table }
    ensures { seat.new.table ≡ seat.old.table }
{
    let mut check = 0;
    for _ in 0..count {
        if let Some(number) = claims.next(seat) {
            check = mix(check, number as u64);
        }
    }
    check
}

/// The numbers below the count are drawn by one seat.
pub fn draw(clock: &impl Clock, alloc: Global, count: u32) -> Result<Timing> {
    let (claims, mut seats) = Claims::new(alloc, count, 1)?;
    let mut seat = seats.pop().context("there is no seat")?;
    let start = Instant::now(clock)?;
    let check = draw_all(&claims, &mut seat, count);
    let timing = Timing::since(clock, start, count as u64, "draws")?;
    ensure!(claims.next(&mut seat).is_none(), "a number is left");
    Ok(timing.checked(check))
}

// An entry is the number that a call is shown.
struct Shown;

impl Tells<u32, u64> for Shown {
    ghost entry = { λ number. number };
}

// A note adds the numbers below the count, and another one meets it after each.
fn note_all(
    notes: &Notes<u64, Anything>,
    writer: &mut Note<u64, Anything>,
    reader: &mut Note<u64, Anything>,
    count: u32,
)
    requires { (writer.old.table ≡ notes.now.table) × (reader.old.table ≡ notes.now.table) }
{
    for number in 0..count {
        notes.add::<u32, Shown>(writer, &number);
        notes.meet(reader, writer);
    }
}

/// One note adds the numbers below the count to a history, and another one meets it after each.
pub fn note(clock: &impl Clock, alloc: Global, count: u32) -> Result<Timing> {
    let (notes, mut list) = Notes::<u64, Anything>::new(alloc, 2)?;
    let mut reader = list.pop().context("there is no second note")?;
    let mut writer = list.pop().context("there is no note")?;
    let start = Instant::now(clock)?;
    note_all(&notes, &mut writer, &mut reader, count);
    let timing = Timing::since(clock, start, count as u64, "notes")?;
    Ok(timing.checked(count as u64))
}
