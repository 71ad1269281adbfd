//! The words of one region.
ghost use Rattle.std.specs.Prelude.{◌≡◌, fold, map};
ghost use Rattle.dali_words.specs.Words.{write_under};
ghost use Rattle.dali_access.specs.Heap.Cells as cell;
ghost use Rattle.dali_access.specs.Index.Entries as entry;
ghost use Rattle.dali_record.specs.Spelling.{IsUndo};
ghost use Rattle.dali_record.specs.Operations.{effect as effect_of, undo_op as operation_of};
ghost use Rattle.dali_history.specs.Recovered.{free_word as freed_word};

use dali_record::{Pending, effect, undo_op};

// The state of a killed cell or entry.
const DEAD: u64 = 2;

/// Writes these words over those in the set `mask`, in their order.
pub fn write(words: &mut [u64; 64], mask: u64, news: &[u64])
    ensures { words.new ≡ write_under mask news.now words.old }
{
    let mut left = mask;
    for new in news {
        if left == 0 {
            return;
        }
        words[left.trailing_zeros() as usize] = *new;
        left &= left - 1;
    }
}

/// The words behind an undo.
pub fn undone(words: &[u64; 64], pending: &Pending) -> [u64; 64]
    requires { IsUndo pending.now.undo }
    ensures { result ≡ (effect_of (operation_of pending.now.undo) pending.now.key words.now).0.after }
{
    let (effect, _, _) = effect(&undo_op(&pending.undo), pending.key, words);
    effect.after
}

// Makes a state free where it is that of a dead cell or entry.
fn free_word(words: &mut [u64; 64], place: usize)
    ensures { words.new ≡ freed_word words.old place }
{
    if place >= words.len() {
        return;
    }
    if words[place] == DEAD {
        words[place] = 0;
    }
}

// The same at each of these places.
fn free_words(words: &mut [u64; 64], places: &[usize])
    ensures { words.new ≡ fold freed_word words.old places.now }
{
    for place in places {
        free_word(words, *place);
    }
}

/// Frees the dead entries of an index region.
pub fn free_entries(words: &mut [u64; 64])
    ensures { words.new ≡ fold freed_word words.old (map entry.state_word entry.entries) }
{
    free_words(
        words,
        &[
            1, 4, 7, 10, 13, 16, 19, 22, 25, 28, 31, 34, 37, 40, 43, 46, 49, 52, 55, 58, 61,
        ],
    );
}

/// Frees the dead cells of a heap region.
pub fn free_cells(words: &mut [u64; 64])
    ensures { words.new ≡ fold freed_word words.old (map cell.state_word cell.cells) }
{
    free_words(words, &[8, 16, 24, 32, 40, 48, 56]);
}
