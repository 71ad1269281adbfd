//! How much was done in how long.
ghost use Rattle.std.specs.Prelude.{◌≡◌};
ghost use Rattle.dali_bench.specs.Amounts.{rate_of, text_of};

use std::rt::Clock;
use std::time::{Duration, Instant};
use std::{fmt, io};

/// So many things, in so long, with a number that tells whether both sides of the benches did the same.
#[derive(Clone, Copy)]
pub struct Timing {
    /// How many things were done.
    pub count: u64,
    /// What the things are.
    pub unit: &'static str,
    /// How long it took.
    pub elapsed: Duration,
    /// The check number.
    pub check: u64,
}

impl Timing {
    /// So many things, in the time since the start. The check number is 0.
    pub fn since(
        clock: &impl Clock,
        start: Instant,
        count: u64,
        unit: &'static str,
    ) -> io::Result<Timing> {
        Ok(Timing::new(count, unit, start.elapsed(clock)?))
    }

    /// So many things, in so long. The check number is 0.
    pub fn new(count: u64, unit: &'static str, elapsed: Duration) -> Timing {
        Timing {
            count,
            unit,
            elapsed,
            check: 0,
        }
    }

    /// The same with this check number.
    pub fn checked(self, check: u64) -> Timing {
        Timing { check, ..self }
    }
}

/// How many a second, rounded down. What took no time counts as a nanosecond.
pub fn rate(count: u64, nanoseconds: u128) -> u128
    ensures { result ≡ rate_of count nanoseconds }
{
    count as u128 * 1_000_000_000 / nanoseconds.max(1)
}

impl fmt::Display for Timing {
    ghost use Rattle.std.specs.Prelude.{Some};

    ghost output = { λ timing. Some (text_of timing) };

    fn fmt<W: fmt::Write>(&self, f: &mut fmt::Formatter<W>) -> fmt::Result {
        let rate = rate(self.count, self.elapsed.as_nanos());
        let unit = self.unit;
        let check = self.check;
        write!(f, "{rate} {unit} a second, check {check}")
    }
}
