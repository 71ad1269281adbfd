//! Laws over the definitions, each the contract of a function that does nothing.
ghost use Rattle.dali_recovery.specs.Laws.{BeginsBehind, TakesFurther, NamesMisfit, TellsUnscanned, ScansOn, StaysAssumed, HandsOutVerdict, NamesOverBatches, HandsOutOverBatches, NoneIsMisfit, RecoversLegal, RecoversHistory};

/// Whoever begins behind an image and takes the records from there on, one after another, stands behind those that it has taken,
/// and each of them may follow those before it.
pub fn a_recovery_follows_its_records()
    ensures begins { BeginsBehind }
    ensures takes { TakesFurther }
{}

/// Where it takes one as a misfit, that is the first record that may not stand where it does, and the answer of the whole files
/// names its number.
pub fn a_recovery_names_the_first_misfit()
    ensures { NamesMisfit }
{}

/// That an epoch has to be read again is told exactly where an audit of it failed, and no more where its damage is assumed from
/// its begin on.
pub fn a_recovery_tells_what_is_unscanned()
    ensures tells { TellsUnscanned }
    ensures scans { ScansOn }
    ensures stays { StaysAssumed }
{}

/// Behind all records it hands out what a restart computes from these files, whatever records they are.
pub fn a_recovery_hands_out_the_verdict()
    ensures { HandsOutVerdict }
{}

/// So it is over batches, where each record of a restart has to be the first of its batch: the first record that fails a test of
/// either kind is named.
pub fn a_recovery_answers_over_batches()
    ensures names { NamesOverBatches }
    ensures hands_out { HandsOutOverBatches }
{}

/// From files whose image fitted a front of a legal log no record is a misfit, and what is handed out is what the whole log says.
/// Of a history that is, where a record stands behind the image, exactly the records of the survivors.
pub fn a_recovery_recovers_the_log()
    ensures fits { NoneIsMisfit }
    ensures legal { RecoversLegal }
    ensures histories { RecoversHistory }
{}
