//! What blocks do to an image, as seen from one key: the slots that are its own, the flags of its walk, and the calls on it.
ghost use Rattle.std.specs.Prelude.{◌≡◌, ℕ, List};
ghost use Rattle.dali_geometry.specs.Sizes.{Sizes};
ghost use Rattle.dali_access.specs.Index.Invariant.{IsImage};
ghost use Rattle.dali_record.specs.declared.operations.Block.{Block};
ghost use Rattle.dali_record.specs.declared.records.Record.{Record};
ghost use Rattle.dali_record.specs.Blocks.{IsSoundOn, rewritten};
ghost use Rattle.dali_record.specs.Operations.{effect};
ghost use Rattle.dali_record.specs.Settled.{redo_all};

/// The new words of a block that is sound on the words of its region are what its operation leaves there.
pub fn a_sound_block_writes_what_its_operation_does()
    ensures { (ws : List ℕ) (b : Block) → IsSoundOn ws b → rewritten b ws ≡ (effect b.op b.key ws).0.after }
{}

/// The new words of any blocks, written over an image, leave an image.
pub fn blocks_keep_an_image()
    ensures { (s : Sizes) (image : List (List ℕ)) (log : List Record) → IsImage s image → IsImage s (redo_all image log) }
{}
