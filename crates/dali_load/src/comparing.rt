//! Rows beside others.
ghost use Rattle.std.specs.Prelude.{◌≡◌, ◌↔◌, true};

use dali_listing::Listed;

/// Whether these are the same rows, in the same order.
pub fn are_same(rows: &[Listed], others: &[Listed]) -> bool
    ensures { result ≡ true ↔ rows.now ≡ others.now }
{
    rows == others
}
