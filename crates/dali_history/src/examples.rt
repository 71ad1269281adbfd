//! Worked logs: what the definitions give of them, by computing.
ghost use Rattle.std.specs.Prelude.{◌≡◌, true, false, List, [], ◌∷◌, Some, None, take};
ghost use Rattle.dali_access.specs.Index.Records.{records};
ghost use Rattle.dali_record.specs.Log.{committed};
ghost use Rattle.dali_record.specs.Epochs.{recovered_epoch, clean_place, failing};
ghost use Rattle.dali_record.specs.Damage.{deleted_list};
ghost use Rattle.dali_record.specs.Legal.{sizes_of, ReadsWords};
ghost use Rattle.dali_history.specs.Serial.{survivors, expected};
ghost use Rattle.dali_history.specs.Marked.{kept_of};
ghost use Rattle.dali_history.specs.Recovered.{recovered};
ghost use Rattle.dali_history.specs.History.{IsHistory};
ghost use Rattle.dali_history.specs.Promise.{RestartIsRight};
ghost use Rattle.dali_history.specs.Examples.Tests.{values, is_ruled};
ghost use Rattle.dali_history.specs.Examples.Logs.{chain_log, chain_restarted_log, undone_change_log, damaged_writer_log, abort_log, full_log, wrong_answer_log, no_look_log, change_stands_log, taken_back_log, taken_back_whole_log, taken_back_half_log, answered_after_log, added_after_log, reads_nothing_log};

/// Transaction 3 reads a damaged word and inserts key 6, which 5 reads: both are deleted. 4 reads neither, and survives.
pub fn a_chain_of_two_and_a_survivor()
    ensures clean { clean_place (recovered_epoch chain_log) ≡ 15 }
    ensures failing { failing (recovered_epoch chain_log) ≡ 3 ∷ [] }
    ensures deleted { deleted_list (recovered_epoch chain_log) ≡ 3 ∷ 5 ∷ [] }
    ensures survivors { survivors chain_log ≡ 1 ∷ 2 ∷ 4 ∷ [] }
    ensures kept { committed (kept_of (recovered_epoch chain_log)) ≡ 1 ∷ 2 ∷ 4 ∷ [] }
    ensures expected { values chain_log (4 ∷ 5 ∷ 6 ∷ []) ≡ Some (97 ∷ 98 ∷ 99 ∷ []) ∷ Some (121 ∷ []) ∷ None ∷ [] }
    ensures recovered { records (sizes_of chain_log) (recovered (sizes_of chain_log) chain_log) ≡ (4, 97 ∷ 98 ∷ 99 ∷ []) ∷ (5, 121 ∷ []) ∷ [] }
    ensures again { records (sizes_of chain_log) (recovered (sizes_of chain_log) chain_restarted_log) ≡ (4, 97 ∷ 98 ∷ 99 ∷ []) ∷ (5, 121 ∷ []) ∷ [] }
{}

/// So the premises of the theorems are met by a log with damage and with deleted transactions.
pub fn the_chain_is_a_history()
    ensures history { IsHistory chain_log }
    ensures restart { RestartIsRight chain_log }
{}

/// And by the other two logs with damage.
pub fn other_damaged_logs_are_histories()
    ensures undone_change { IsHistory undone_change_log }
    ensures damaged_writer { IsHistory damaged_writer_log }
{}

/// Transaction 3 updates key 5 before it reads a damaged word, and 4 reads key 5: both are deleted.
pub fn a_clean_change_is_undone()
    ensures deleted { deleted_list (recovered_epoch undone_change_log) ≡ 3 ∷ 4 ∷ [] }
    ensures expected { values undone_change_log (4 ∷ 5 ∷ 6 ∷ []) ≡ Some (97 ∷ 98 ∷ 99 ∷ []) ∷ Some (120 ∷ 121 ∷ 122 ∷ []) ∷ None ∷ [] }
    ensures recovered { records (sizes_of undone_change_log) (recovered (sizes_of undone_change_log) undone_change_log) ≡ (4, 97 ∷ 98 ∷ 99 ∷ []) ∷ (5, 120 ∷ 121 ∷ 122 ∷ []) ∷ [] }
{}

/// Transaction 2 changes a value of which a word is damaged: it is deleted.
pub fn a_writer_of_damaged_words_is_deleted()
    ensures deleted { deleted_list (recovered_epoch damaged_writer_log) ≡ 2 ∷ [] }
    ensures expected { values damaged_writer_log (4 ∷ 5 ∷ 6 ∷ []) ≡ Some (97 ∷ 98 ∷ 99 ∷ []) ∷ None ∷ None ∷ [] }
    ensures recovered { records (sizes_of damaged_writer_log) (recovered (sizes_of damaged_writer_log) damaged_writer_log) ≡ (4, 97 ∷ 98 ∷ 99 ∷ []) ∷ [] }
{}

/// Logs that the rules allow: with damage, with an abort and removals, with a heap that is full, and with a call that was given up.
pub fn logs_that_the_rules_allow()
    ensures chain { is_ruled chain_log (1 ∷ 2 ∷ 3 ∷ 4 ∷ 5 ∷ []) ≡ true }
    ensures restarted { is_ruled chain_restarted_log (1 ∷ 2 ∷ 3 ∷ 4 ∷ 5 ∷ []) ≡ true }
    ensures abort { is_ruled abort_log (1 ∷ 2 ∷ 3 ∷ 4 ∷ 5 ∷ 6 ∷ []) ≡ true }
    ensures full { is_ruled full_log (1 ∷ 2 ∷ 3 ∷ 4 ∷ []) ≡ true }
    ensures given_up { is_ruled taken_back_log (1 ∷ []) ≡ true }
{}

/// Logs that break the rules on calls: an answer that the blocks don't give, an answer without a block, and a change that
/// stands when the next call begins.
pub fn logs_that_break_the_rules_on_calls()
    ensures wrong_answer { is_ruled wrong_answer_log (1 ∷ []) ≡ false }
    ensures no_look { is_ruled no_look_log (1 ∷ []) ≡ false }
    ensures change_stands { is_ruled change_stands_log (1 ∷ []) ≡ false }
{}

/// Logs that break the rules on taking back. After a block that takes back a change of an answered call no Commit follows. After
/// one that takes back a change of the present call neither a forward block of it follows, nor the answer Ok. All before the
/// record that breaks the rule is allowed.
pub fn logs_that_break_the_rules_on_taking_back()
    ensures whole { is_ruled taken_back_whole_log (1 ∷ []) ≡ false }
    ensures whole_front { is_ruled (take 8 taken_back_whole_log) (1 ∷ []) ≡ true }
    ensures half { is_ruled taken_back_half_log (1 ∷ []) ≡ false }
    ensures half_front { is_ruled (take 7 taken_back_half_log) (1 ∷ []) ≡ true }
    ensures answered { is_ruled (take 8 answered_after_log) (1 ∷ []) ≡ false }
    ensures answered_front { is_ruled (take 7 answered_after_log) (1 ∷ []) ≡ true }
    ensures added { is_ruled (take 6 added_after_log) (1 ∷ []) ≡ false }
    ensures added_front { is_ruled (take 5 added_after_log) (1 ∷ []) ≡ true }
{}

/// A log with a block that reads no word breaks that rule alone, and no map is expected of it.
pub fn a_log_whose_block_reads_nothing()
    ensures others { is_ruled reads_nothing_log (1 ∷ []) ≡ true }
    ensures expected { expected reads_nothing_log ≡ None }
    ensures refused { ReadsWords reads_nothing_log → ⊥ }
{}
