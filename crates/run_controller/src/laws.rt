//! Lemmas: the coupling invariants of a run from what the controller did. The functions have no
//! code.
ghost use Rattle.run_controller.specs.Gated.{GatedTriesKeep};
ghost use Rattle.run_controller.specs.Laws.{ControllerKeepsCoupling};

/// Lemma: what the controller did gives its coupling invariants at the closing.
pub fn the_controller_keeps_its_coupling()
    ensures { ControllerKeepsCoupling }
{
    gated_tries_keep_their_coupling();
}

/// Lemma: a try of a command behind a gate keeps the coupling invariants of tries.
pub fn gated_tries_keep_their_coupling()
    ensures { GatedTriesKeep }
{}
