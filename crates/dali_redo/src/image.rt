//! The words of all regions.
ghost use Rattle.std.specs.Prelude.{◌≡◌, ◌≤◌, All, map, fold, length, slice_set};
ghost use Rattle.dali_access.specs.Heap.Cells as cell;
ghost use Rattle.dali_access.specs.Index.Entries as entry;
ghost use Rattle.dali_record.specs.Spelling.{IsUndo};
ghost use Rattle.dali_record.specs.Settled.{redo, words_in};
ghost use Rattle.dali_record.specs.Blocks.{rewritten};
ghost use Rattle.dali_history.specs.Recovered.{undo_into, roll_back, freed, free_word};

use crate::words;
use dali_geometry::Geometry;
use dali_record::{Block, Pending, Record};
use std::marker::Model;

/// The words of all regions while a restart recovers them. Codewords are made once, from what it comes to.
#[derive(Drop)]
pub struct Image {
    regions: Vec<[u64; 64]>,
}

impl Model for Image {
    ghost use Rattle.std.specs.Prelude.{List, ℕ};

    ghost Value = { List (List ℕ) };

    ghost view = { λ image. image.regions.items };
}

// Frees the dead entries of index regions.
fn free_index(regions: &mut [[u64; 64]])
    ensures { regions.new ≡ map (λ ws. fold free_word ws (map entry.state_word entry.entries)) regions.old }
{
    for region in 0..regions.len() {
        words::free_entries(&mut regions[region]);
    }
}

// Frees the dead cells of heap regions.
fn free_heap(regions: &mut [[u64; 64]])
    ensures { regions.new ≡ map (λ ws. fold free_word ws (map cell.state_word cell.cells)) regions.old }
{
    for region in 0..regions.len() {
        words::free_cells(&mut regions[region]);
    }
}

impl Image {
    /// The image with these words, region by region. Takes no memory.
    pub fn new(regions: Vec<[u64; 64]>) -> Self
        ensures { result ≡ regions.items }
    {
        Image { regions }
    }

    /// The words, region by region. Takes no memory.
    pub fn into_regions(self) -> Vec<[u64; 64]>
        ensures { result.items ≡ self }
    {
        self.regions
    }

    // Writes the new words of a block.
    fn write(&mut self, block: &Block)
        ensures { self.new ≡ slice_set self.old block.now.region (rewritten block.now (words_in self.old block.now.region)) }
    {
        let region = block.region as usize;
        if region < self.regions.len() {
            words::write(
                &mut self.regions[region],
                block.write,
                block.after.as_slice(),
            );
        }
    }

    /// Writes the new words of the record's block, if it has one, and nothing else. Takes no memory.
    pub fn redo(&mut self, logged: &Record)
        ensures { self.new ≡ redo self.old logged.now }
    {
        match logged {
            Record::Forward { block, .. } => self.write(block),
            Record::Back { block, .. } => self.write(block),
            Record::Solo { block, .. } => self.write(block),
            _ => {}
        }
    }

    // Performs one undo.
    fn undo(&mut self, pending: &Pending)
        requires { IsUndo pending.now.undo }
        ensures { self.new ≡ undo_into self.old pending.now }
    {
        let region = pending.region as usize;
        if region < self.regions.len() {
            let undone = words::undone(&self.regions[region], pending);
            self.regions[region] = undone;
        }
    }

    /// Performs these undos, from the last one. Takes no memory.
    pub fn roll_back(&mut self, undos: &[Pending])
        requires { All (λ p. IsUndo p.undo) undos.now }
        ensures { self.new ≡ roll_back self.old undos.now }
    {
        let mut left = undos.len();
        while left > 0 {
            left -= 1;
            self.undo(&undos[left]);
        }
    }

    /// Frees the dead entries and cells. The first regions are the index regions. Takes no memory.
    pub fn free_dead(&mut self, geometry: Geometry)
        requires { geometry.index ≤ length self.old }
        ensures { self.new ≡ freed geometry self.old }
    {
        let index = geometry.index() as usize;
        let (entries, cells) = self.regions.split_at_mut(index);
        free_index(entries);
        free_heap(cells);
    }
}
