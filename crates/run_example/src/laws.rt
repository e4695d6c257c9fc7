//! The lemma that a worked run keeps all coupling invariants. The function has no code.
ghost use Rattle.run_example.specs.MovingRun.{MovingRunExists};

/// Lemma: the coupling invariants can be kept with loads of hint words, a resize between two
/// choices of a queue, and a flow that moves to another transmit queue.
pub fn moving_run_exists()
    ensures { MovingRunExists }
{}
