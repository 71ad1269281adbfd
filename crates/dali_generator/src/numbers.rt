//! The numbers of a generated round.
ghost use Rattle.std.specs.Prelude.{◌≡◌, ◌≤◌};
ghost use Rattle.dali_generator.specs.Generated;

const MULTIPLIER: u64 = 6364136223846793005;

const INCREMENT: u64 = 1442695040888963407;

/// The state of the generator behind this one.
pub fn next(state: u64) -> u64
    ensures { result ≡ Generated.next state }
{
    state.wrapping_mul(MULTIPLIER).wrapping_add(INCREMENT)
}

/// The key of a client's transaction.
pub fn key_of(client: u32, transaction: u32) -> u64
    ensures { result ≡ Generated.key_of client transaction }
{
    u64::from(client) * 1_000_000 + u64::from(transaction)
}

/// How many index regions a generated round runs on: one for ten transactions, and one more.
pub fn index_regions(clients: u32, size: u32) -> u32
    requires clients { clients ≤ 64 }
    requires size { size ≤ 1000 }
    ensures { result ≡ Generated.index_regions clients size }
{
    clients * size / 10 + 1
}

/// How many heap regions a generated round runs on: one for five transactions, and one more.
pub fn heap_regions(clients: u32, size: u32) -> u32
    requires clients { clients ≤ 64 }
    requires size { size ≤ 1000 }
    ensures { result ≡ Generated.heap_regions clients size }
{
    clients * size / 5 + 1
}
