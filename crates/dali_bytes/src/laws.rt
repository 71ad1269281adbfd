//! Laws over the definitions, each the contract of a function that does nothing.
ghost use Rattle.std.specs.Prelude.{◌≡◌, ◌<◌, ◌^◌, ◌++◌, ℕ, List, Some, length};
ghost use Rattle.dali_bytes.specs.Cursor.{IsBytes};
ghost use Rattle.dali_bytes.specs.Fields.{number32, number64};
ghost use Rattle.dali_bytes.specs.Reading.{number32_at, number64_at, bytes_at};

/// A number that is written is read again, whatever follows it.
pub fn numbers_are_read_again()
    ensures number32 { (n : ℕ) (rest : List ℕ) → n < 2 ^ 32 → number32_at (number32 n ++ rest) ≡ Some (n, rest) }
    ensures number64 { (n : ℕ) (rest : List ℕ) → n < 2 ^ 64 → number64_at (number64 n ++ rest) ≡ Some (n, rest) }
    ensures bytes { (front rest : List ℕ) → bytes_at (length front) (front ++ rest) ≡ Some (front, rest) }
{}

/// What is read as a number is that number as it is written.
pub fn numbers_are_written_so()
    ensures number32 { (bs : List ℕ) (n : ℕ) (rest : List ℕ) → IsBytes bs → number32_at bs ≡ Some (n, rest) → (bs ≡ number32 n ++ rest) × (n < 2 ^ 32) }
    ensures number64 { (bs : List ℕ) (n : ℕ) (rest : List ℕ) → IsBytes bs → number64_at bs ≡ Some (n, rest) → (bs ≡ number64 n ++ rest) × (n < 2 ^ 64) }
    ensures bytes { (n : ℕ) (bs front rest : List ℕ) → bytes_at n bs ≡ Some (front, rest) → (bs ≡ front ++ rest) × (length front ≡ n) }
{}
