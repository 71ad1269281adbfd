//! What every restart promises, over lists of records.
ghost use Rattle.std.specs.Prelude.{◌≡◌, ◌<◌, ◌∷◌, [], ◌++◌, ◌↔◌, ℕ, List, Some, length, IsPermutation, Contains};
ghost use Rattle.std.specs.List.{AllByRecursion};
ghost use Rattle.dali_geometry.specs.Sizes.{Sizes};
ghost use Rattle.dali_record.specs.declared.records.Record.{Record};
ghost use Rattle.dali_record.specs.declared.records.Record.TheVariants.{Restarted};
ghost use Rattle.dali_record.specs.Log.{committed};
ghost use Rattle.dali_record.specs.Epochs.{Epoch, epochs, last_epoch, failing};
ghost use Rattle.dali_record.specs.Damage.{deleted_list};
ghost use Rattle.dali_record.specs.Settled.{redo_all, AreSound};
ghost use Rattle.dali_record.specs.Legal.{sizes_of, IsLegalFor};
ghost use Rattle.dali_history.specs.Serial.{Map, survivors, expected};
ghost use Rattle.dali_history.specs.Marked.{marks_of, kept_of};
ghost use Rattle.dali_history.specs.Undos.{FindsAll, undos_in};
ghost use Rattle.dali_history.specs.Recovered.{losers, freed, base_of, recovered, IsHonestIn};
ghost use Rattle.dali_history.specs.History.{IsHistory, RestartGives};
ghost use Rattle.dali_history.specs.Promise.{RestartsAs, RestartIsRight};
ghost use Rattle.dali_history.specs.Headline.Holds.{Holds, IsFront, IsRunning};
ghost use Rattle.dali_history.specs.Headline.Rollback.{rolled, RollsBack};
ghost use Rattle.dali_history.specs.Headline.Bridge.{HistoryIsKept};

/// The kept records of each epoch of a history are as the law of kept records asks, and recovery makes the image that this law speaks of.
pub fn kept_as_the_law_asks()
    ensures { HistoryIsKept }
{}

/// A restart of a history gives exactly the records of the survivors, reports the right lists, and may itself be stopped.
pub fn every_restart_is_right()
    ensures { (log : List Record) → IsHistory log → RestartIsRight log }
{}

/// What a restart of a history recovers is an image that keeps the index's invariant, with the records of the expected
/// map.
pub fn what_is_recovered_holds_what_is_expected()
    ensures { (log : List Record) → IsHistory log
        → (m : Map) × (expected log ≡ Some m) × Holds (sizes_of log) (recovered (sizes_of log) log) m }
{}

/// In whatever order the transactions of a history are rolled back, each undo finds its slot, and the image is the
/// recovered one.
pub fn undos_may_come_in_any_order()
    ensures epoch { (log : List Record) → IsHistory log → (e : Epoch) → Contains (epochs log) e
        → (base : List (List ℕ)) (m : Map) → IsHonestIn base e → Holds (sizes_of log) base m
        → (order : List ℕ) → IsPermutation order (losers e (marks_of e)) → RollsBack (sizes_of log) base e order }
    ensures recovered { (log : List Record) (r : Record) (E : List Record) → IsHistory log → (last_epoch log).records ≡ r ∷ E
        → (order : List ℕ) → IsPermutation order (losers (last_epoch log) (marks_of (last_epoch log)))
        → FindsAll (redo_all (base_of (sizes_of log) log) (kept_of (last_epoch log))) (undos_in order (kept_of (last_epoch log)))
        × (freed (sizes_of log) (rolled (last_epoch log) (redo_all (base_of (sizes_of log) log) (kept_of (last_epoch log))) order) ≡ recovered (sizes_of log) log) }
{}

/// The base of a log that still runs holds what the log up to its last epoch is expected to leave.
pub fn a_running_log_has_a_base()
    ensures front { (log : List Record) → (front : List Record) × IsFront log front }
    ensures holds { (log front : List Record) → IsRunning log → IsFront log front
        → (m : Map) × (expected front ≡ Some m) × Holds (sizes_of log) (base_of (sizes_of log) log) m }
{}

/// A restart of the log with the record of a restart behind it gives the same, and no second such record may follow.
pub fn a_restart_may_be_stopped()
    ensures same { (log more : List Record) (image : List (List ℕ)) (rolled deleted : List ℕ) → RestartsAs log more
        → RestartGives log image rolled deleted ↔ RestartGives more image rolled deleted }
    ensures once { (s : Sizes) (log : List Record) (rs ds : List ℕ) → 1 < length log → (last_epoch log).records ≡ []
        → IsLegalFor s (log ++ Restarted rs ds ∷ []) → ⊥ }
    ensures image { (log : List Record) (rs ds : List ℕ) → IsHistory log
        → recovered (sizes_of log) (log ++ Restarted rs ds ∷ []) ≡ recovered (sizes_of log) log }
{}

/// Where no audit failed, every record is kept, every commit survives and every block of an honest epoch is sound.
pub fn without_damage_all_is_kept()
    ensures kept { (e : Epoch) → failing e ≡ [] → kept_of e ≡ e.records }
    ensures deleted { (e : Epoch) → failing e ≡ [] → deleted_list e ≡ [] }
    ensures sound { (base : List (List ℕ)) (e : Epoch) → failing e ≡ [] → IsHonestIn base e → AreSound base e.records }
    ensures survivors { (log : List Record) → AllByRecursion (λ e. failing e ≡ []) (epochs log) → survivors log ≡ committed log }
{}
