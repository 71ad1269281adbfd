//! Marked words and marked items.
ghost use Rattle.std.specs.Prelude.{◌≡◌, ◌≤◌, ◌+◌, ◌<◌, ℕ, ◌||◌, ◌&&◌, ◌==◌, if◌then◌else◌, length, map, OnOk};
ghost use Rattle.std.specs.Int.Bits.{bit_or};
ghost use Rattle.std.specs.HashSet.{spare};
ghost use Rattle.dali_record.specs.Blocks.{changes_item};
ghost use Rattle.dali_record.specs.Damage.{has};
ghost use Rattle.dali_redo.specs.Taint.Tables.{word_set, has_item};

use dali_record::{Block, Pending, changes};
use std::alloc::AllocError;
use std::collections::HashSet;

/// Adds the words in the set `mask` to those that are marked in the region, if there is one.
pub fn mark_words(sets: &mut [u64], region: u32, mask: u64)
    ensures { region < length sets.old → (r : ℕ) → word_set sets.new r ≡ (if region == r then bit_or (word_set sets.old r) mask else word_set sets.old r) }
{
    let at = region as usize;
    if at < sets.len() {
        sets[at] |= mask;
    }
}

/// Makes room for so many more items. Where memory is wanting nothing is marked or unmarked either.
pub fn make_room(items: &mut HashSet<u64>, count: usize) -> Result<(), AllocError>
    ensures same { (k : ℕ) → has_item items.new k ≡ has_item items.old k }
    ensures room { OnOk result (count ≤ spare items.new) }
{
    items.reserve(count)
}

// Marks an item. There must be room for it.
fn mark_item(items: &mut HashSet<u64>, key: u64)
    requires { 0 < spare items.old }
    ensures marked { (k : ℕ) → has_item items.new k ≡ (has_item items.old k || (key == k)) }
    ensures room { spare items.old ≤ spare items.new + 1 }
{
    let _ = items.insert(key).unwrap();
}

/// Marks the items of these undos. There must be room for them.
pub fn mark_undone(items: &mut HashSet<u64>, undos: &[Pending])
    requires { length undos.now ≤ spare items.old }
    ensures marked { (k : ℕ) → has_item items.new k ≡ (has_item items.old k || has (map (λ u. u.key) undos.now) k) }
    ensures room { spare items.old ≤ spare items.new + length undos.now }
{
    for pending in undos {
        mark_item(items, pending.key);
    }
}

/// Marks the item of the block, if it changes it. There must be room for it.
pub fn mark_changed(items: &mut HashSet<u64>, block: &Block)
    requires { 0 < spare items.old }
    ensures { (k : ℕ) → has_item items.new k ≡ (has_item items.old k || (changes_item block.now && (block.now.key == k))) }
{
    if changes(&block.outcome) {
        mark_item(items, block.key);
    }
}
