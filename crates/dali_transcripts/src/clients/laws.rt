//! Laws of what clients are told and say, each the contract of a function that does nothing.
ghost use Rattle.dali_transcripts.specs.Clients.Laws.{EachIsTold};

/// Commands, reasons and lines that differ are told by different words of transcripts.
pub fn nothing_is_lost()
    ensures told { EachIsTold }
{}
