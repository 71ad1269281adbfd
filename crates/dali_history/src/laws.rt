//! Laws over the definitions, each the contract of a function that does nothing.
ghost use Rattle.std.specs.Prelude.{◌≡◌, ◌<◌, ◌++◌, ◌∷◌, [], ◌↔◌, ℕ, not, List, Option, Some, IsSome, Contains, filter, flat_map, length};
ghost use Rattle.std.specs.List.Sorted.{IsStrictlyIncreasing};
ghost use Rattle.dali_geometry.specs.Sizes.{Sizes};
ghost use Rattle.dali_geometry.specs.Places.{formatted_image};
ghost use Rattle.dali_access.specs.Index.Invariant.{IsImage, IsIndexed, IsTidy};
ghost use Rattle.dali_record.specs.declared.records.Answer.{Answer};
ghost use Rattle.dali_record.specs.declared.records.Answer.TheVariants.{Odd};
ghost use Rattle.dali_record.specs.declared.records.Call.{Call};
ghost use Rattle.dali_record.specs.declared.records.Record.{Record};
ghost use Rattle.dali_record.specs.declared.records.Record.TheVariants.{Begin, Done, Commit, Ended, Restarted};
ghost use Rattle.dali_record.specs.Spelling.{CanBeSpelled};
ghost use Rattle.dali_record.specs.Log.{committed};
ghost use Rattle.dali_record.specs.Epochs.{Epoch, epochs, last_epoch};
ghost use Rattle.dali_record.specs.Damage.{damage_of, IsDeleted, deleted_list, rolled_list};
ghost use Rattle.dali_record.specs.Legal.{IsLegalFor, ReadsWords, rules_state, sizes_of};
ghost use Rattle.dali_history.specs.Serial.{Map, empty_map, calls_after, values_after, on_key, serial, calls_in_order, is_deleted_in, survivors, expected};
ghost use Rattle.dali_history.specs.Images.{HasRecords};
ghost use Rattle.dali_history.specs.Recovered.{recovered, IsHonest};
ghost use Rattle.dali_history.specs.Blocks.{HasValues, HasWholeBlocks};
ghost use Rattle.dali_history.specs.History.{AreSpelled, IsHistory};
ghost use Rattle.dali_history.specs.Acknowledged.{KeepsCommitted};

/// Calls on a map are calls on each of its keys. What the calls lead to at a key, those on this key alone lead to from what
/// stands there. They are allowed on the map where they are allowed on each key.
pub fn calls_are_calls_on_each_key()
    ensures each { (m n : Map) (cs : List (Call × Answer)) → calls_after (Some m) cs ≡ Some n → (k : ℕ) → values_after (Some (m k)) (on_key k cs) ≡ Some (n k) }
    ensures allowed { (m : Map) (cs : List (Call × Answer)) → ((k : ℕ) → IsSome (values_after (Some (m k)) (on_key k cs))) → IsSome (calls_after (Some m) cs) }
    ensures one_list { (m : Map) (ts : List ℕ) (log : List Record) → serial m ts log ≡ calls_after (Some m) (calls_in_order ts log) }
{}

/// What is formatted is an image that keeps the index's invariant, and stores nothing.
pub fn a_formatted_image_is_empty()
    ensures image { (s : Sizes) → 0 < s.index → 0 < s.heap → IsImage s (formatted_image s) }
    ensures indexed { (s : Sizes) → IsIndexed s (formatted_image s) }
    ensures tidy { (s : Sizes) → IsTidy s (formatted_image s) }
    ensures empty { (s : Sizes) → HasRecords s (formatted_image s) empty_map }
{}

/// The blocks of records that can be spelled name values, and have an undo only where they change their item.
pub fn spelled_blocks_are_whole()
    ensures values { (log : List Record) → AreSpelled log → HasValues log }
    ensures whole { (log : List Record) → AreSpelled log → ReadsWords log → HasWholeBlocks log }
{}

/// The survivors of a log are those of its epochs, one epoch after another.
pub fn survivors_are_those_of_the_epochs()
    ensures { (s : Sizes) (log : List Record) → IsLegalFor s log
        → survivors log ≡ flat_map (λ e. filter (λ t. not (is_deleted_in t e)) (committed e.records)) (epochs log) }
{}

/// A transaction that committed survives whatever is logged later, unless a chain deletes it.
pub fn a_commit_survives_or_a_chain_deletes_it()
    ensures { (log more : List Record) → KeepsCommitted log (log ++ more) }
{}

/// Where the survivors can be replayed with the answers that they got, none of these is Odd.
pub fn no_survivor_was_answered_odd()
    ensures { (log : List Record) (m : Map) → expected log ≡ Some m → (t : ℕ) (c : Call) (p : ℕ)
        → Contains (survivors log) t → Contains log (Done t c (Odd p)) → ⊥ }
{}

/// The two lists that a restart reports of an epoch: who is in them, that they ascend, and that its record can be spelled.
pub fn a_restart_reports_the_right_lists()
    ensures deleted { (s : Sizes) (log : List Record) (e : Epoch) (t : ℕ) → IsLegalFor s log → Contains (epochs log) e
        → Contains (deleted_list e) t ↔ IsDeleted (damage_of e) e.records t }
    ensures rolled { (e : Epoch) (t : ℕ)
        → Contains (rolled_list e) t ↔ (Contains e.records (Begin t) × (Contains e.records (Commit t) → ⊥) × (Contains e.records (Ended t) → ⊥)) }
    ensures deleted_ascends { (s : Sizes) (log : List Record) (e : Epoch) → IsSome (rules_state s log) → Contains (epochs log) e
        → IsStrictlyIncreasing (deleted_list e) }
    ensures rolled_ascends { (s : Sizes) (log : List Record) (e : Epoch) → IsSome (rules_state s log) → Contains (epochs log) e
        → IsStrictlyIncreasing (rolled_list e) }
    ensures spelled { (s : Sizes) (log : List Record) → IsSome (rules_state s log) → AreSpelled log
        → CanBeSpelled (Restarted (rolled_list (last_epoch log)) (deleted_list (last_epoch log))) }
{}

/// What a stop leaves of a history is one, where no damage escapes.
pub fn the_front_of_a_history_is_one()
    ensures { (front more : List Record) → 0 < length front → IsHistory (front ++ more) → IsHonest (sizes_of front) front
        → IsHistory front }
{}

/// A history with the record of its restart is one, with the same survivors, the same map and the same image.
pub fn the_record_of_a_restart_changes_nothing()
    ensures history { (log : List Record) (r : Record) (E : List Record) (rs ds : List ℕ) → IsHistory log
        → (last_epoch log).records ≡ r ∷ E → rs ≡ rolled_list (last_epoch log) → ds ≡ deleted_list (last_epoch log)
        → IsHistory (log ++ Restarted rs ds ∷ []) }
    ensures survivors { (log : List Record) (rs ds : List ℕ) → survivors (log ++ Restarted rs ds ∷ []) ≡ survivors log }
    ensures expected { (log : List Record) (rs ds : List ℕ) → expected (log ++ Restarted rs ds ∷ []) ≡ expected log }
    ensures image { (s : Sizes) (log : List Record) (r : Record) (E : List Record) (rs ds : List ℕ)
        → (last_epoch log).records ≡ r ∷ E → recovered s (log ++ Restarted rs ds ∷ []) ≡ recovered s log }
{}
