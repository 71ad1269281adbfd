//! Lists of numbers as records hold them. Contracts see each as the list itself.
ghost use Rattle.std.specs.Prelude.{◌≡◌, ◌<◌, ◌≤◌, [], ◌∷◌, ◌++◌, length};
ghost use Rattle.dali_words.specs.Words.{under};

use std::marker::Model;

/// How many words a region has.
const WORDS: usize = 64;

/// The new words of a block, at most one for each of a region's 64 words. They lie in the value
/// itself, so none of them takes memory.
#[derive(Drop)]
pub struct Words {
    // the words, and zeros or old words behind them
    cells: [u64; WORDS],
    count: usize,
}

impl Model for Words {
    ghost use Rattle.std.specs.Prelude.{List, ℕ, ◌≡◌, ◌≤◌, length, take};

    ghost Value = { List ℕ };

    ghost view = { λ w. take w.count w.cells };

    ghost invariant = { λ w. (w.count ≤ 64) × (length w.cells ≡ 64) };
}

impl Words {
    /// No words.
    pub fn new() -> Self
        ensures { result ≡ [] }
    {
        Words {
            cells: [0; WORDS],
            count: 0,
        }
    }

    /// The words of a region in the set `mask`, ascending, in place of these. It goes from one word of the set to the next.
    pub fn fill_under(&mut self, mask: u64, words: &[u64; 64])
        ensures { self.new ≡ under mask words.now }
    {
        self.clear();
        let mut left = mask;
        while left != 0 {
            self.push(words[left.trailing_zeros() as usize]);
            left &= left - 1;
        }
    }

    /// Takes all words out.
    pub fn clear(&mut self)
        ensures { self.new ≡ [] }
    {
        self.count = 0;
    }

    /// Adds a word at the end.
    pub fn push(&mut self, word: u64)
        requires { length self.old < 64 }
        ensures { self.new ≡ self.old ++ word ∷ [] }
    {
        self.cells[self.count] = word;
        self.count += 1;
    }

    /// The words.
    pub fn as_slice(&self) -> &[u64]
        ensures words { result.now ≡ self.now }
        ensures few { length self.now ≤ 64 }
    {
        &self.cells[..self.count]
    }
}

impl PartialEq for Words {
    ghost use Rattle.std.specs.Prelude.{nat_eq};
    ghost use Rattle.std.specs.Cmp.{partial_equiv_from_equiv};
    ghost use Rattle.std.specs.Cmp.Lexicographic.{pointwise, nat_list_eq_equiv};

    ghost eq = { λ x y. pointwise nat_eq x y };

    ghost laws = { partial_equiv_from_equiv nat_list_eq_equiv };

    fn eq(&self, other: &Self) -> bool {
        self.as_slice() == other.as_slice()
    }
}

impl Eq for Words {
    ghost use Rattle.std.specs.Cmp.Lexicographic.{nat_list_eq_equiv};

    ghost laws = { nat_list_eq_equiv };
}

/// Numbers of transactions.
#[derive(Drop)]
pub struct Numbers {
    numbers: Vec<u64>,
}

impl Model for Numbers {
    ghost use Rattle.std.specs.Prelude.{List, ℕ};

    ghost Value = { List ℕ };

    ghost view = { λ n. n.numbers.items };
}

impl Numbers {
    /// These numbers. Takes no memory.
    pub fn new(numbers: Vec<u64>) -> Self
        ensures { result ≡ numbers.items }
    {
        Numbers { numbers }
    }

    /// The numbers.
    pub fn as_slice(&self) -> &[u64]
        ensures { result.now ≡ self.now }
    {
        &self.numbers
    }

    /// The numbers as a vector. Takes no memory.
    pub fn into_vec(self) -> Vec<u64>
        ensures { result.items ≡ self }
    {
        self.numbers
    }
}

impl PartialEq for Numbers {
    ghost use Rattle.std.specs.Prelude.{nat_eq};
    ghost use Rattle.std.specs.Cmp.{partial_equiv_from_equiv};
    ghost use Rattle.std.specs.Cmp.Lexicographic.{pointwise, nat_list_eq_equiv};

    ghost eq = { λ x y. pointwise nat_eq x y };

    ghost laws = { partial_equiv_from_equiv nat_list_eq_equiv };

    fn eq(&self, other: &Self) -> bool {
        self.as_slice() == other.as_slice()
    }
}

impl Eq for Numbers {
    ghost use Rattle.std.specs.Cmp.Lexicographic.{nat_list_eq_equiv};

    ghost laws = { nat_list_eq_equiv };
}

/// Numbers of regions.
#[derive(Debug, Drop)]
pub struct Regions {
    regions: Vec<u32>,
}

impl Model for Regions {
    ghost use Rattle.std.specs.Prelude.{List, ℕ};

    ghost Value = { List ℕ };

    ghost view = { λ r. r.regions.items };
}

impl Regions {
    /// These regions. Takes no memory.
    pub fn new(regions: Vec<u32>) -> Self
        ensures { result ≡ regions.items }
    {
        Regions { regions }
    }

    /// The regions.
    pub fn as_slice(&self) -> &[u32]
        ensures { result.now ≡ self.now }
    {
        &self.regions
    }

    /// The regions as a vector. Takes no memory.
    pub fn into_vec(self) -> Vec<u32>
        ensures { result.items ≡ self }
    {
        self.regions
    }
}

impl PartialEq for Regions {
    ghost use Rattle.std.specs.Prelude.{nat_eq};
    ghost use Rattle.std.specs.Cmp.{partial_equiv_from_equiv};
    ghost use Rattle.std.specs.Cmp.Lexicographic.{pointwise, nat_list_eq_equiv};

    ghost eq = { λ x y. pointwise nat_eq x y };

    ghost laws = { partial_equiv_from_equiv nat_list_eq_equiv };

    fn eq(&self, other: &Self) -> bool {
        self.as_slice() == other.as_slice()
    }
}

impl Eq for Regions {
    ghost use Rattle.std.specs.Cmp.Lexicographic.{nat_list_eq_equiv};

    ghost laws = { nat_list_eq_equiv };
}
