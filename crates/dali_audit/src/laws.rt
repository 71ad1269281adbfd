//! A law of audits over lists of records, the contract of a function that does nothing.
ghost use Rattle.dali_audit.specs.Stepped.{BeginIsStep, NoneIsFound, PassIsStep, EndIsStep};

/// What each call of an audit leaves is a step of a core: its begin, each pass, and its end, which names just the regions
/// whose pass answered other than 0.
pub fn an_audit_makes_steps()
    ensures begun { BeginIsStep }
    ensures none { NoneIsFound }
    ensures passed { PassIsStep }
    ensures ended { EndIsStep }
{}
