//! Laws over the definitions, each the contract of a function that does nothing.
ghost use Rattle.dali_recovery.specs.Reload.Laws.{ReadsLegal, ReadsHistory, OneReading, OneBadPlace, FindsLater};

/// Of a legal log whose image fitted a front of it no place is bad, and what is handed out at its end is what the whole log says.
/// Of a history, where a record stands behind the image, that is exactly the records of the survivors, and the right lists.
pub fn a_log_is_read_whole()
    ensures legal { ReadsLegal }
    ensures histories { ReadsHistory }
{}

/// A log that is read to an end is read as one thing only: its batches, its end and its answer are the only ones. No place of it is
/// bad behind the image, nor does a record stand there that may not.
pub fn a_log_is_read_as_one_thing()
    ensures { OneReading }
{}

/// Behind an image a log is bad at one place, whichever comes first: bytes that are no batch or no record, or a record that may not
/// stand where it does. So a bad place that `read_scanned` names is the first one, also where both kinds stand in one batch.
pub fn a_log_is_bad_at_one_place()
    ensures { OneBadPlace }
{}

/// A pass over a log that tells the damage of an epoch tells one that begins behind all whose damage was found before it.
pub fn each_pass_finds_a_later_epoch()
    ensures { FindsLater }
{}
