//! Who is next.
ghost use Rattle.std.specs.Prelude.{◌≡◌, ◌<◌, ◌≤◌, ◌^◌, length};
ghost use Rattle.dali_schedule.specs.Seats;

use rand_core::utils::NextWord;
use rand_pcg::Pcg32;

/// In which order the baton goes round.
#[derive(Drop)]
pub(crate) enum Order {
    /// By ascending number, and from the highest to the lowest.
    Turns,
    /// The next one is drawn from these numbers.
    Seeded(Pcg32),
}

impl Order {
    /// Who is next after this one, of those that are expected. None where nobody is.
    pub(crate) fn next(&mut self, expected: &[bool], from: u32) -> Option<u32>
        requires { length expected.now ≤ 2 ^ 32 }
        ensures { (self.new, result) ≡ Seats.next_after self.old expected.now from }
    {
        match self {
            Order::Turns => next_in_turn(expected, from),
            Order::Seeded(numbers) => {
                let word = numbers.next_word();
                drawn(expected, word)
            }
        }
    }
}

// The lowest number at or above this one that is expected.
fn lowest(expected: &[bool], from: usize) -> Option<u32>
    requires { length expected.now ≤ 2 ^ 32 }
    ensures { result ≡ Seats.lowest expected.now from }
{
    for number in from..expected.len() {
        if expected[number] {
            return Some(number as u32);
        }
    }
    None
}

// The lowest number above this one that is expected, or else the lowest of all.
fn next_in_turn(expected: &[bool], from: u32) -> Option<u32>
    requires { length expected.now ≤ 2 ^ 32 }
    ensures { result ≡ Seats.next_in_turn expected.now from }
{
    match lowest(expected, from as usize + 1) {
        Some(client) => Some(client),
        None => lowest(expected, 0),
    }
}

// How many are expected.
fn count(expected: &[bool]) -> u64
    requires { length expected.now ≤ 2 ^ 32 }
    ensures { result ≡ Seats.count expected.now }
{
    let mut count = 0;
    for number in 0..expected.len() {
        count += u64::from(expected[number]);
    }
    count
}

// The one below which so many others are expected.
fn ranked(expected: &[bool], rank: u64) -> Option<u32>
    requires { length expected.now ≤ 2 ^ 32 }
    ensures { result ≡ Seats.ranked expected.now rank }
{
    let mut left = rank;
    for number in 0..expected.len() {
        if expected[number] && left == 0 {
            return Some(number as u32);
        }
        left -= u64::from(expected[number]);
    }
    None
}

// The one that a word draws among those that are expected.
fn drawn(expected: &[bool], word: u32) -> Option<u32>
    requires { length expected.now ≤ 2 ^ 32 }
    ensures { result ≡ Seats.drawn expected.now word }
{
    ranked(expected, u64::from(word) % count(expected).max(1))
}
