//! What the rules on numbers and on room give of a legal log: how long it can be, and which numbers it has.

ghost use Rattle.dali_runs.specs.Counts.Counts.{UnbegunAbove, PrefixLegal, IsSmall, IsShort, FileIsShort, IsLight};

/// A number that wasn't given yet has no record.
pub fn a_new_number_has_no_record()
    ensures { UnbegunAbove }
{}

/// A legal log stays legal where it is cut off.
pub fn a_beginning_is_legal()
    ensures { PrefixLegal }
{}

/// A legal log has fewer than 2^40 records, since those that use no room come after ones that do.
pub fn a_legal_log_is_small()
    ensures { IsSmall }
{}

/// The bytes of a legal log, with a frame for each record, stay below 2^62.
pub fn a_legal_log_is_short()
    ensures { IsShort }
{}

/// So do those of its file: no caller of an append owes it.
pub fn the_file_of_a_legal_log_is_short()
    ensures { FileIsShort }
{}

/// The bytes of its records alone stay below 2^40: what uses room keeps within the limit, and the rest is what such records
/// leave to be done.
pub fn a_legal_log_is_light()
    ensures { IsLight }
{}
