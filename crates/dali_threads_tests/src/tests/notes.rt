//! Entries that two threads add.
ghost use Rattle.std.specs.Prelude.{◌≡◌};

use dali_notes::{Anything, Note, Notes, Tells};
use std::sync::{Barrier, Wait};
use std::test::*;
use std::thread::join;

const COUNT: u32 = 20_000;

// An entry is the number that a call is shown.
struct Shown;

impl Tells<u32, u64> for Shown {
    ghost entry = { λ number. number };
}

// One entry, and once the other thread has one too, the others.
fn add_all(
    rt: &impl Wait,
    notes: &Notes<u64, Anything>,
    both: &Barrier,
    mut note: Note<u64, Anything>,
) -> Note<u64, Anything>
    requires { note.table ≡ notes.now.table }
    ensures { result.table ≡ notes.now.table }
{
    notes.add::<u32, Shown>(&mut note, &0);
    both.wait(rt);
    for number in 1..COUNT {
        notes.add::<u32, Shown>(&mut note, &number);
    }
    note
}

#[test]
fn two_threads_add_and_meet(rt: HostRuntime) -> Result<(), Fail> {
    let (notes, mut list) = Notes::<u64, Anything>::new(rt.alloc(), 2)?;
    let (Some(second), Some(first)) = (list.pop(), list.pop()) else {
        return Err("there are two notes".into());
    };
    let both = Barrier::new(2);
    let (mut first, mut second) = join(
        &rt,
        || add_all(&rt, &notes, &both, first),
        || add_all(&rt, &notes, &both, second),
    );
    notes.meet(&mut first, &mut second);
    list.push(second)?;
    list.push(first)?;
    notes.finish(list);
    Ok(())
}
