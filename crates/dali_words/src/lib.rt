//! Words of a region, values of 1 to 40 bytes, and what an operation does to the words of a region.
//!
//! A region has 64 words of 64 bits. A set of its words is a `u64` in which bit i stands for word i.
//! The exclusive-or of all words is the codeword by which damage is found (Bohannon et al., TKDE 2003).
#![tactic(auto)]

ghost use Rattle.std.specs.Prelude.{◌≡◌, ◌<◌, ◌≤◌, ◌+◌, ◌^◌, length};
ghost use Rattle.dali_words.specs.Values.{IsValue, value_of, packed, unpacked_value};
ghost use Rattle.dali_words.specs.Values;
ghost use Rattle.dali_words.specs.Words;
ghost use Rattle.dali_words.specs.Effects;

pub mod laws;

use byteorder::{BigEndian, ByteOrder};
use std::cmp::Ordering;
use std::marker::Model;

/// How many bytes a value has at most.
const MAX_SIZE: usize = 40;

/// A value: 1 to 40 bytes. Values are ordered byte by byte, a prefix first.
#[derive(Clone, Copy)]
pub struct Value {
    bytes: [u8; 40],
    count: u8,
}

impl Model for Value {
    ghost use Rattle.std.specs.Prelude.{List, ℕ, ◌≡◌, ◌≤◌, ◌<◌, ◌-◌, ◌++◌, take, length, replicate, All};
    ghost use Rattle.std.proofs.Common.{ap, sym, ◌∙◌, arith};
    ghost use Rattle.std.proofs.lemmas.List.{length-take-le};

    ghost Value = { List ℕ };

    ghost view = { λ v. take v.count v.bytes };

    ghost invariant = { λ v. (1 ≤ v.count) × (v.count ≤ 40) × (length v.bytes ≡ 40) × (v.bytes ≡ take v.count v.bytes ++ replicate (40 - v.count) 0) × All (λ b. b < 256) (take v.count v.bytes) };

    ghost inverse = { λ d. record { bytes = d ++ replicate (40 - length d) 0; count = length d } };

    ghost inverse_ok = { λ a h.
        let room : a.count ≤ length a.bytes = Prim.omega (arith, h.1, h.2) in
        let same : length (take a.count a.bytes) ≡ a.count = length-take-le a.count a.bytes room in
        let back : take a.count a.bytes ++ replicate (40 - length (take a.count a.bytes)) 0 ≡ a.bytes = ap (λ n. take a.count a.bytes ++ replicate (40 - n) 0) same ∙ sym h.3 in
        λ i. record { bytes = back i; count = same i } };
}

impl Value {
    /// The value of these bytes. None where they are fewer than 1 or more than 40.
    pub fn from_bytes(bytes: &[u8]) -> Option<Value>
        ensures { result ≡ value_of bytes.now }
    {
        if bytes.is_empty() || bytes.len() > MAX_SIZE {
            return None;
        }
        let mut padded = [0; 40];
        padded[..bytes.len()].copy_from_slice(bytes);
        Some(Value {
            bytes: padded,
            count: bytes.len() as u8,
        })
    }

    /// The bytes of the value.
    pub fn bytes(&self) -> &[u8]
        ensures same { result.now ≡ self.now }
        ensures value { IsValue self.now }
    {
        &self.bytes[..self.count as usize]
    }
}

impl PartialEq for Value {
    ghost use Rattle.std.specs.Prelude.{nat_eq};
    ghost use Rattle.std.specs.Cmp.{partial_equiv_from_equiv};
    ghost use Rattle.std.specs.Cmp.Lexicographic.{pointwise, nat_list_eq_equiv};

    ghost eq = { λ x y. pointwise nat_eq x y };

    ghost laws = { partial_equiv_from_equiv nat_list_eq_equiv };

    fn eq(&self, other: &Self) -> bool {
        self.bytes() == other.bytes()
    }
}

impl Eq for Value {
    ghost use Rattle.std.specs.Cmp.Lexicographic.{nat_list_eq_equiv};

    ghost laws = { nat_list_eq_equiv };
}

impl PartialOrd for Value {
    ghost use Rattle.std.specs.Prelude.{Some};
    ghost use Rattle.std.specs.Ordering.{nat_cmp};
    ghost use Rattle.std.specs.Cmp.Lexicographic.{slice_cmp, texts_po};

    ghost partial_cmp = { λ x y. Some (slice_cmp nat_cmp x y) };

    ghost laws = { texts_po };

    fn partial_cmp(&self, other: &Self) -> Option<Ordering> {
        Some(self.cmp(other))
    }
}

impl Ord for Value {
    ghost use Rattle.std.specs.Prelude.{refl};
    ghost use Rattle.std.specs.Ordering.{nat_cmp};
    ghost use Rattle.std.specs.Cmp.Lexicographic.{slice_cmp, nat_list_cmp_total, texts_ties};

    ghost cmp = { λ x y. slice_cmp nat_cmp x y };

    ghost total = { nat_list_cmp_total };

    ghost matches_partial_cmp = { λ x y. refl };

    ghost matches_eq = { λ x y. texts_ties x y };

    fn cmp(&self, other: &Self) -> Ordering {
        self.bytes().cmp(other.bytes())
    }
}

/// Whether a value may have this length: 1 to 40.
pub fn is_size(length: u64) -> bool
    ensures { result ≡ Values.is_size length }
{
    1 <= length && length <= MAX_SIZE as u64
}

/// The value as five words, the most significant byte of each first, padded with zero bytes.
pub fn pack(value: &Value) -> [u64; 5]
    ensures { result ≡ packed value.now }
{
    let mut words = [0; 5];
    BigEndian::read_u64_into(&value.bytes, &mut words);
    words
}

/// The value of the first `length` bytes of five words. None where `length` isn't 1 to 40.
/// The bytes behind them aren't looked at.
pub fn unpack(length: u64, words: &[u64; 5]) -> Option<Value>
    ensures { result ≡ unpacked_value length words.now }
{
    if !is_size(length) {
        return None;
    }
    let mut bytes = [0; 40];
    BigEndian::write_u64_into(words, &mut bytes);
    Value::from_bytes(&bytes[..length as usize])
}

/// What an operation does to the 64 words of a region.
#[derive(Clone, Copy, PartialEq, Eq)]
pub struct Effect {
    /// The set of the words that it reads. The words that it writes are among them.
    pub read: u64,
    /// The set of the words that it writes, also where a word keeps its value.
    pub write: u64,
    /// All words afterwards. Those that it doesn't write are as before.
    pub after: [u64; 64],
}

impl Effect {
    /// Reads the words in the set `read`, and writes none.
    pub fn reading(words: &[u64; 64], read: u64) -> Effect
        ensures { result ≡ Effects.reading words.now read }
    {
        Effect {
            read,
            write: 0,
            after: *words,
        }
    }

    /// Reads the words in the set `read`, and writes these over the words from `first` on. The caller
    /// names the written words among those read, as each operation on cells and entries does.
    pub fn writing(words: &[u64; 64], read: u64, first: u8, news: &[u64]) -> Effect
        requires { first + length news.now ≤ 64 }
        ensures { result ≡ Effects.writing words.now read first news.now }
    {
        let mut after = *words;
        let start = first as usize;
        after[start..start + news.len()].copy_from_slice(news);
        Effect {
            read,
            write: bits(first, news.len() as u8),
            after,
        }
    }
}

/// What killing a cell or an entry found.
#[derive(Clone, Copy, PartialEq, Eq)]
pub enum KillOutcome {
    /// The state isn't that of a live one.
    NotLive { state: u64 },
    /// It has another key.
    OtherKey { key: u64 },
    /// The length of the cell's value isn't 1 to 40.
    OddLength { length: u64 },
    /// It was killed.
    Killed,
}

/// The set of one word.
pub fn bit(word: u8) -> u64
    requires { word < 64 }
    ensures { result ≡ 2 ^ word }
{
    1 << word
}

/// The set of `count` words, from `first` on.
pub fn bits(first: u8, count: u8) -> u64
    requires { first + count ≤ 64 }
    ensures { result ≡ Words.mask_of (Words.row_of first count) }
{
    let mut set = 0;
    for word in first..first + count {
        set |= bit(word);
    }
    set
}

/// The exclusive-or of all words.
pub fn parity(words: &[u64; 64]) -> u64
    ensures { result ≡ Words.parity_of words.now }
{
    words.iter().fold(0, |all, word| all ^ *word)
}

/// The exclusive-or of the words in the set `mask`. It goes from one word of the set to the next, since an operation
/// reads few.
pub fn xor_under(words: &[u64; 64], mask: u64) -> u64
    ensures { result ≡ Words.xor_under mask words.now }
{
    let mut all = 0;
    let mut left = mask;
    while left != 0 {
        all ^= words[left.trailing_zeros() as usize];
        left &= left - 1;
    }
    all
}
