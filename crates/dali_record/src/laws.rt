//! Laws over the definitions, each the contract of a function that does nothing.
//!
//! A definition over a log has a law for one more record at the log's end, since that is the step
//! that the engine makes.
ghost use Rattle.std.specs.Prelude.{◌≡◌, ◌<◌, ◌≤◌, ◌++◌, [], ◌∷◌, ◌==◌, not, true, false, List, ℕ, Bool, Some, IsSome, length, bit_xor};
ghost use Rattle.dali_geometry.specs.Sizes.{Sizes};
ghost use Rattle.dali_words.specs.Words.{AgreeUnder, AreWords};
ghost use Rattle.dali_record.specs.declared.operations.Op.{Op};
ghost use Rattle.dali_record.specs.declared.operations.Block.{Block};
ghost use Rattle.dali_record.specs.declared.records.Record.{Record};
ghost use Rattle.dali_record.specs.declared.records.Record.TheVariants.{Restarted};
ghost use Rattle.dali_record.specs.Spelling.{Is32, Is64, IsOperation, IsBlock, CanBeSpelled, spelling, record_length};
ghost use Rattle.dali_record.specs.Blocks.{made, IsSoundOn, changes_item};
ghost use Rattle.dali_record.specs.Log.{Touch, touch_of, touch_at, undos_of, undo_step, calls_of, committed};
ghost use Rattle.std.specs.List.{list_any};
ghost use Rattle.dali_record.specs.Epochs.{separates, cut, cut_step, last_epoch, clean_place, clean_step, failing, failing_step, recovered_epoch};
ghost use Rattle.dali_record.specs.Files.{Files, Fits, with_batch};
ghost use Rattle.dali_record.specs.Locks.{IsLockLegal, EndedBetween, conflicts};
ghost use Rattle.dali_record.specs.Settled.{redo_all, redo, AreSound, IsSoundIn};
ghost use Rattle.dali_record.specs.Damage.{Damage, marks, mark_of, kept, is_dropped, has_corrupt, IsCorrupt, rolled_list, deleted_list};
ghost use Rattle.dali_record.specs.Legal.{Working, Active, txn_state, txn_next, rules_state, rules_next, concerns, ReadsWords, IsLegalFor};
ghost use Rattle.dali_record.specs.Laws.{MarksAreChains, IsHonestFor};
ghost use Rattle.dali_record.specs.Scan.{ScanIsChain};

/// No record's spelling begins that of another one.
pub fn no_spelling_begins_another()
    ensures { (r s : Record) (a b : List ℕ) → CanBeSpelled r → CanBeSpelled s → spelling r ++ a ≡ spelling s ++ b → (r ≡ s) × (a ≡ b) }
{}

/// The length of a spelling is the sum of the lengths of its fields.
pub fn spelled_in_so_many_bytes()
    ensures { (r : Record) → CanBeSpelled r → length (spelling r) ≡ record_length r }
{}

/// What one more record does to the undos, calls, Commits and rules of transactions.
pub fn one_more_record_of_a_transaction()
    ensures undos { (t : ℕ) (L : List Record) (r : Record) → undos_of t (L ++ r ∷ []) ≡ undo_step t (undos_of t L) r }
    ensures calls { (t : ℕ) (L : List Record) (r : Record) → calls_of t (L ++ r ∷ []) ≡ calls_of t L ++ calls_of t (r ∷ []) }
    ensures commits { (L : List Record) (r : Record) → committed (L ++ r ∷ []) ≡ committed L ++ committed (r ∷ []) }
    ensures state { (s : Sizes) (t : ℕ) (L : List Record) (r : Record) → txn_state s t (L ++ r ∷ []) ≡ txn_next s t (txn_state s t L) r }
    ensures others { (s : Sizes) (t : ℕ) (L : List Record) (r : Record) → concerns t r ≡ false → IsSome (txn_state s t L) → txn_state s t (L ++ r ∷ []) ≡ txn_state s t L }
{}

/// What one more record does to the epochs, and to the rules on the whole log.
pub fn one_more_record_of_a_log()
    ensures cut { (L : List Record) (r : Record) → cut (L ++ r ∷ []) ≡ cut_step (cut L) r }
    ensures rules { (s : Sizes) (L : List Record) (r : Record) → rules_state s (L ++ r ∷ []) ≡ rules_next s (rules_state s L) r }
{}

/// What one more record does to the epoch that is open, and which one a restart recovers.
pub fn one_more_record_of_an_epoch()
    ensures longer { (L : List Record) (r : Record) → separates r ≡ false → last_epoch (L ++ r ∷ []) ≡ record { first = (last_epoch L).first; records = (last_epoch L).records ++ r ∷ [] } }
    ensures clean { (L : List Record) (r : Record) → separates r ≡ false → clean_place (last_epoch (L ++ r ∷ [])) ≡ clean_step (clean_place (last_epoch L)) r }
    ensures failing { (L : List Record) (r : Record) → separates r ≡ false → failing (last_epoch (L ++ r ∷ [])) ≡ failing_step (failing (last_epoch L)) r }
    ensures going_on { (L : List Record) (r : Record) → separates r ≡ false → recovered_epoch (L ++ r ∷ []) ≡ last_epoch (L ++ r ∷ []) }
    ensures restarted { (L : List Record) (rs ds : List ℕ) → recovered_epoch (L ++ Restarted rs ds ∷ []) ≡ last_epoch L }
{}

/// Files that fit a log still fit it with one more batch at its end. With a Restarted they do at the epoch that it ends, if a record
/// stood behind their image.
pub fn one_more_batch()
    ensures going_on { (s : Sizes) (base : List (List ℕ)) (L B : List Record) (F : Files) → list_any separates B ≡ false
        → Fits s base L F (last_epoch L) → Fits s base (L ++ B) (with_batch F B) (last_epoch (L ++ B)) }
    ensures restarted { (s : Sizes) (base : List (List ℕ)) (L : List Record) (rs ds : List ℕ) (F : Files) → F.first < length L
        → Fits s base L F (last_epoch L) → Fits s base (L ++ Restarted rs ds ∷ []) (with_batch F (Restarted rs ds ∷ [])) (last_epoch L) }
{}

/// What one more record does to the blocks of a log, and to the words that they leave.
pub fn one_more_block()
    ensures old { (E : List Record) (r : Record) (i : ℕ) → i < length E → touch_at (E ++ r ∷ []) i ≡ touch_at E i }
    ensures new { (E : List Record) (r : Record) → touch_at (E ++ r ∷ []) (length E) ≡ touch_of r }
    ensures redone { (base : List (List ℕ)) (L : List Record) (r : Record) → redo_all base (L ++ r ∷ []) ≡ redo (redo_all base L) r }
    ensures sound { (base : List (List ℕ)) (E : List Record) (r : Record) → AreSound base E → IsSoundIn (redo_all base E) r → AreSound base (E ++ r ∷ []) }
{}

/// What one more record does to the damage: it makes no earlier block corrupt and no corrupt one
/// clean.
pub fn one_more_mark()
    ensures marks { (d : Damage) (E : List Record) (r : Record) → marks d (E ++ r ∷ []) ≡ marks d E ++ (r, mark_of d (marks d E) r) ∷ [] }
    ensures stays { (d : Damage) (E : List Record) (r : Record) (q : ℕ) → IsCorrupt d E q → IsCorrupt d (E ++ r ∷ []) q }
    ensures stood { (d : Damage) (E : List Record) (r : Record) (q : ℕ) → q < length E → IsCorrupt d (E ++ r ∷ []) q → IsCorrupt d E q }
    ensures dropped { (d : Damage) (E : List Record) (r : Record) → is_dropped (marks d (E ++ r ∷ [])) r ≡ true → kept (marks d (E ++ r ∷ [])) ≡ kept (marks d E) }
    ensures kept { (d : Damage) (E : List Record) (r : Record) → is_dropped (marks d (E ++ r ∷ [])) r ≡ false → kept (marks d (E ++ r ∷ [])) ≡ kept (marks d E) ++ r ∷ [] }
{}

/// A log stays legal and lock-legal with a record that may follow.
pub fn one_more_allowed_record()
    ensures legal { (s : Sizes) (L : List Record) (r : Record) → IsLegalFor s L
        → IsSome (rules_next s (rules_state s L) r)
        → ((t : ℕ) → concerns t r ≡ true → IsSome (txn_next s t (txn_state s t L) r))
        → ((rs ds : List ℕ) → r ≡ Restarted rs ds → (rs ≡ rolled_list (last_epoch L)) × (ds ≡ deleted_list (last_epoch L)))
        → ((a : Touch) → touch_of r ≡ Some a → not (a.block.read == 0) ≡ true)
        → IsLegalFor s (L ++ r ∷ []) }
    ensures locks { (L : List Record) (r : Record) → IsLockLegal L
        → ((i : ℕ) (a b : Touch) → touch_at (last_epoch L).records i ≡ Some a → touch_of r ≡ Some b → conflicts a b ≡ true
        → EndedBetween a.owner i (length (last_epoch L).records) (last_epoch L).records)
        → IsLockLegal (L ++ r ∷ []) }
{}

/// The undo list that the rules keep for a running transaction is that of the log.
pub fn rules_keep_the_undo_list()
    ensures { (s : Sizes) (t : ℕ) (L : List Record) (w : Working) → txn_state s t L ≡ Some (Active w) → w.undos ≡ undos_of t L }
{}

/// The block of any operation reads some word, and has an undo only where it changes its item.
pub fn every_operation_reads()
    ensures reads { (op : Op) (key r : ℕ) (ws : List ℕ) → not ((made ws key r op).read == 0) ≡ true }
    ensures gives { (op : Op) (key r : ℕ) (ws : List ℕ) → IsSome (made ws key r op).undo → changes_item (made ws key r op) ≡ true }
{}

/// The block of an operation that can be spelled can be spelled itself, whatever words it found.
pub fn operations_make_blocks()
    ensures { (op : Op) (key r : ℕ) (ws : List ℕ) → IsOperation op → Is64 key → Is32 r → AreWords ws → IsBlock (made ws key r op) }
{}

/// A block that can be spelled has an undo only where it changes its item.
pub fn undos_come_with_changes()
    ensures { (b : Block) → IsBlock b → IsSome b.undo → changes_item b ≡ true }
{}

/// A block that is sound on some words is sound on all that agree with them where it reads.
pub fn sound_by_the_words_read()
    ensures { (b : Block) (ws us : List ℕ) → AgreeUnder b.read ws us → IsSoundOn ws b → IsSoundOn us b }
{}

/// A block is marked by looking back over the earlier ones exactly where a chain of links ends with it.
pub fn marked_by_a_chain()
    ensures { MarksAreChains }
{}

/// A scan that knows the marked words and items after each record finds the next corrupt block as
/// chains do. (Bohannon et al., TKDE 2003, scan the log so; the exact rule is this repository's.)
pub fn judged_by_a_scan()
    ensures { ScanIsChain }
{}

/// The kept blocks of an honest epoch are sound on the words that the base and the earlier kept
/// blocks leave.
pub fn kept_blocks_are_sound()
    ensures { (d : Damage) (base : List (List ℕ)) (E : List Record) → IsHonestFor d base E → ReadsWords E → AreSound base (kept (marks d E)) }
{}

/// A transaction without a corrupt block keeps its calls.
pub fn clean_transactions_keep_their_calls()
    ensures { (d : Damage) (E : List Record) (t : ℕ) → has_corrupt (marks d E) t ≡ false → calls_of t (kept (marks d E)) ≡ calls_of t E }
{}
