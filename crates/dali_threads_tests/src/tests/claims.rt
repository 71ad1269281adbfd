//! Numbers that two threads draw.
ghost use Rattle.std.specs.Prelude.{◌≡◌, IfOk};

use dali_claims::{ClaimSeat, Claims};
use std::alloc::AllocError;
use std::sync::{Barrier, Wait};
use std::test::*;
use std::thread::join;

const COUNT: u32 = 20_000;

// One number, and once the other thread has one too, all that are left.
fn draw_all(
    rt: &impl Wait,
    claims: &Claims,
    both: &Barrier,
    mut seat: ClaimSeat,
    mut numbers: Vec<u32>,
) -> Result<(ClaimSeat, Vec<u32>), AllocError>
    requires { seat.table ≡ claims.now.table }
    ensures { IfOk result (λ r. r.0.table ≡ claims.now.table) }
{
    if let Some(number) = claims.next(&mut seat) {
        numbers.push(number)?;
    }
    both.wait(rt);
    for _ in 0..COUNT {
        match claims.next(&mut seat) {
            Some(number) => numbers.push(number)?,
            None => break,
        }
    }
    Ok((seat, numbers))
}

#[test]
fn two_threads_draw_each_number_once(rt: HostRuntime) -> Result<(), Fail> {
    let (claims, mut seats) = Claims::new(rt.alloc(), COUNT, 2)?;
    let (Some(second), Some(first)) = (seats.pop(), seats.pop()) else {
        return Err("there are two seats".into());
    };
    let front = Vec::with_capacity(rt.alloc(), COUNT as usize)?;
    let back = Vec::with_capacity(rt.alloc(), COUNT as usize)?;
    let both = Barrier::new(2);
    let (one, two) = join(
        &rt,
        || draw_all(&rt, &claims, &both, first, front),
        || draw_all(&rt, &claims, &both, second, back),
    );
    let (mut first, mut numbers) = one?;
    let (second, others) = two?;
    assert!(rt; !numbers.is_empty() && !others.is_empty());
    assert_eq!(rt; claims.next(&mut first), None);
    for number in others {
        numbers.push(number)?;
    }
    numbers.sort_unstable();
    let all: Vec<u32> = (0..COUNT).collect(rt.alloc())?;
    assert_eq!(rt; numbers, all);
    seats.push(second)?;
    seats.push(first)?;
    claims.finish(seats);
    Ok(())
}
