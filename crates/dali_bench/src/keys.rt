//! Numbers that look random, and check numbers, the same on both sides of the benches.
ghost use Rattle.std.specs.Prelude.{◌<◌};

/// The number at a place of a sequence that looks random.
pub fn scattered(place: u64) -> u64 {
    place.wrapping_mul(0x9e37_79b9_7f4a_7c15)
}

/// The number at a place of a sequence of numbers below a limit.
pub fn below(limit: u64, place: u64) -> u64
    requires { 0 < limit }
    ensures { result < limit }
{
    (scattered(place) >> 32) % limit
}

/// A check number with one more number in it.
pub fn mix(check: u64, number: u64) -> u64 {
    (check ^ number).wrapping_mul(0x0100_0000_01b3)
}

/// The check number of bytes.
pub fn mix_bytes(bytes: &[u8]) -> u64 {
    let mut check = 0;
    for byte in bytes {
        check = mix(check, *byte as u64);
    }
    check
}
