//! Calls that come twice, unexpected, or without a seat, by one thread: each of them returns.
use crate::{Lines, steps};
use dali_schedule::{Baton, Schedule};
use std::alloc::{AllocError, Global};
use std::sync::{Condvar, Mutex, Wait};
use std::thread::Threads;

// Steps and pauses of clients that have the baton, or none to wait for.
fn try_calls<R: Wait>(rt: &R, baton: &Baton) {
    baton.step(rt, 2);
    baton.leave(rt, 2);
    baton.leave(rt, 2);
    baton.leave(rt, 1);
    baton.expect(rt, 1);
    baton.expect(rt, 1);
    baton.expect(rt, 2);
    baton.leave(rt, 1);
    baton.step(rt, 2);
    baton.step(rt, 2);
    let value = Mutex::new(0u32);
    let news = Condvar::new();
    baton.pause(rt, 2, value.lock(rt), &news);
    baton.leave(rt, 2);
    baton.step(rt, 2);
    baton.leave(rt, 2);
    baton.expect(rt, 3);
    baton.step(rt, 9);
    baton.pause(rt, 9, value.lock(rt), &news);
    baton.leave(rt, 9);
    baton.expect(rt, 9);
    baton.leave(rt, 3);
}

/// Each of these calls returns, and the same baton serves for a run behind them.
pub fn try_all<R: Threads + Wait + Sync>(
    rt: &R,
    alloc: Global,
    lines: &mut Lines,
) -> Result<(), AllocError> {
    for (tried, baton) in [
        ("turns", Baton::turns(alloc, 3)?),
        ("seed 5", Baton::seeded(alloc, 3, 5)?),
    ] {
        try_calls(rt, &baton);
        lines.add(
            tried,
            "calls that come twice, unexpected or without a seat return",
        )?;
        let none = steps::run(rt, alloc, &baton, &[], 0)?;
        lines.add_steps("nobody", none)?;
        lines.add_steps("one alone", steps::run(rt, alloc, &baton, &[3], 0)?)?;
        lines.add_steps(
            "one without a seat",
            steps::run(rt, alloc, &baton, &[9], 0)?,
        )?;
    }
    let baton = Baton::turns(alloc, 3)?;
    lines.add_steps(
        "turns, in another order",
        steps::run(rt, alloc, &baton, &[3, 1, 2], 0)?,
    )?;
    lines.add_steps(
        "turns, once more",
        steps::run(rt, alloc, &baton, &[2, 3], 3)?,
    )
}
