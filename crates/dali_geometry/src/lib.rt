//! The sizes of a database, and the places in it.
//!
//! A database has I index regions, numbered 0 to I-1, and H heap regions, numbered I to I+H-1.
//! A heap region has the cells 1 to 7, and the place of a cell is `8 * region + cell`.
#![tactic(auto)]

ghost use Rattle.std.specs.Prelude.{◌≡◌, ◌≤◌, ◌<◌, OkIff};
ghost use Rattle.dali_geometry.specs.Sizes.{Sizes, AreInRange};
ghost use Rattle.dali_geometry.specs.Places;

pub mod laws;

use std::marker::Model;
use thiserror::Error;

/// The most index regions.
pub const MAX_INDEX: u32 = 32_768;

/// The most heap regions.
pub const MAX_HEAP: u32 = 65_536;

/// There would be no region of a kind, or too many.
#[derive(Clone, Copy, Debug, PartialEq, Eq, Error)]
#[error("a database has 1 to 32768 index regions and 1 to 65536 heap regions")]
pub struct OutOfRange;

/// How many index regions and heap regions there are.
#[derive(Clone, Copy, PartialEq, Eq)]
pub struct Geometry {
    index: u32,
    heap: u32,
}

impl Model for Geometry {
    ghost use Rattle.dali_geometry.specs.Sizes.{Sizes, AreInRange};

    ghost Value = { Sizes };

    ghost view = { λ g. record { index = g.index; heap = g.heap } };

    ghost invariant = { λ g. AreInRange (record { index = g.index; heap = g.heap }) };

    ghost inverse = { λ s. record { index = s.index; heap = s.heap } };
}

impl Geometry {
    /// The geometry of so many regions of each kind. `OutOfRange` where `index` isn't 1 to 32,768
    /// or `heap` isn't 1 to 65,536.
    pub fn new(index: u32, heap: u32) -> Result<Geometry, OutOfRange>
        ensures { let sizes : Sizes = record { index = index; heap = heap } in OkIff result (AreInRange sizes) sizes }
    {
        if index < 1 || index > MAX_INDEX || heap < 1 || heap > MAX_HEAP {
            return Err(OutOfRange);
        }
        Ok(Geometry { index, heap })
    }

    /// How many index regions there are.
    pub fn index(&self) -> u32
        ensures count { result ≡ self.now.index }
        ensures range { AreInRange self.now }
    {
        self.index
    }

    /// How many heap regions there are.
    pub fn heap(&self) -> u32
        ensures count { result ≡ self.now.heap }
        ensures range { AreInRange self.now }
    {
        self.heap
    }

    /// How many regions there are.
    pub fn regions(&self) -> u32
        ensures count { result ≡ Places.regions self.now }
        ensures range { AreInRange self.now }
    {
        self.index + self.heap
    }

    /// The index region at which the walk of `key` begins.
    pub fn home(&self, key: u64) -> u32
        ensures { result ≡ Places.home self.now key }
    {
        (key % u64::from(self.index)) as u32
    }

    /// The index region after `region`, in a circle.
    pub fn next_index(&self, region: u32) -> u32
        requires { region < self.now.index }
        ensures { result ≡ Places.next_index self.now region }
    {
        let index = self.index;
        if region + 1 == index { 0 } else { region + 1 }
    }

    /// The heap region at which transaction `txn` begins to look for room.
    pub fn heap_start(&self, txn: u64) -> u32
        ensures { result ≡ Places.heap_start self.now txn }
    {
        self.index + (txn % u64::from(self.heap)) as u32
    }

    /// The heap region after `region`, in a circle.
    pub fn next_heap(&self, region: u32) -> u32
        requires low { self.now.index ≤ region }
        requires high { region < Places.regions self.now }
        ensures { result ≡ Places.next_heap self.now region }
    {
        let regions = self.regions();
        if region + 1 == regions {
            self.index
        } else {
            region + 1
        }
    }

    /// The place of a cell.
    pub fn place_of(&self, region: u32, cell: u8) -> u64
        requires low { self.now.index ≤ region }
        requires high { region < Places.regions self.now }
        requires some { 1 ≤ cell }
        requires few { cell ≤ 7 }
        ensures place { result ≡ Places.place region cell }
        ensures names { Places.cell_of self.now result ≡ Some (region, cell) }
    {
        8 * u64::from(region) + u64::from(cell)
    }

    /// The heap region and the cell that a place names. None where it names none.
    pub fn cell_of(&self, place: u64) -> Option<(u32, u8)>
        ensures { result ≡ Places.cell_of self.now place }
    {
        let region = place / 8;
        let cell = place % 8;
        if region < u64::from(self.index) || region >= u64::from(self.regions()) || cell == 0 {
            return None;
        }
        Some((region as u32, cell as u8))
    }

    /// The words of a region before anything is stored: all 0, but word 0 of a heap region is 1.
    pub fn formatted(&self, region: u32) -> [u64; 64]
        ensures { result ≡ Places.formatted self.now region }
    {
        let mut words = [0; 64];
        if self.index <= region && region < self.regions() {
            words[0] = 1;
        }
        words
    }
}
