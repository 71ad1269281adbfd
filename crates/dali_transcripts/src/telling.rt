//! The steps of a core, and the deeds by which the clients of a round tell them: laws.
ghost use Rattle.dali_transcripts.specs.Telling.Laws.{StepTells, MeetsTells, CourseTells, GoesOn, RoundTells, StopIsTold, FailureTells};
ghost use Rattle.dali_transcripts.specs.Telling.Effects.{DeedsSay, DeedLeaves};

/// Each step of a core that a client makes, with the deeds that tell it, keeps what a round promises of all its deeds; so does
/// each list of steps, and a refusal, for which the core makes no step.
pub fn each_step_is_told()
    ensures step { StepTells }
    ensures course { CourseTells }
    ensures meets { MeetsTells }
    ensures further { GoesOn }
{}

/// It holds where a round begins, and the deeds tell why the engine is stopped.
pub fn a_round_begins()
    ensures begins { RoundTells }
    ensures stop { StopIsTold }
{}

/// What its deeds say of the log, of states, locks and refusals is what a step does to the system, in whatever world.
pub fn a_step_does_what_its_deeds_say()
    ensures { DeedsSay }
{}

/// A step that a deed tells leaves each value on which the deed isn't made.
pub fn a_deed_leaves_the_rest()
    ensures { DeedLeaves }
{}

/// Where a store call fails, the vault's fault and the system's stop are told by one deed, which is made on both.
pub fn a_failure_is_one_deed()
    ensures { FailureTells }
{}
