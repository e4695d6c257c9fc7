//! Lemmas on what each step needs: functions without code whose contracts state them.
ghost use Rattle.steer_invariant.specs.StepInvariantLaws.{EventsKeepStepInvariant, GatesAreOpen};
ghost use Rattle.steer_invariant.specs.StepInvariantLaws.{StepKeepsStepInvariant};
ghost use Rattle.steer_invariant.specs.StepInvariantLaws.{StepsKeepStepInvariant, StepsKeepSetup};

/// Lemma: every step that names what the machine has preserves the step invariant: a step of one
/// event or a command, a step of many events, and a list of steps. Steps leave what the plan and
/// the capture fix.
pub fn steps_keep_the_invariant()
    ensures events { EventsKeepStepInvariant }
    ensures step { StepKeepsStepInvariant }
    ensures steps { StepsKeepStepInvariant }
    ensures setup { StepsKeepSetup }
{}

/// Lemma: between steps both gates are open, and no reply was dropped.
pub fn gates_are_open_between_steps()
    ensures { GatesAreOpen }
{}
