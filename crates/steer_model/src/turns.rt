//! Whether a step was work.
ghost use Rattle.std.specs.Prelude.{◌≡◌};
ghost use Rattle.steer_model.specs.Steps.SingleSteps.{is_idle as was_idle};
ghost use Rattle.steer_model.specs.Steps.SingleSteps.{is_work as counts_as_work};

use steer_base::{Answer, Step};

/// Whether a step takes a packet on: entering, leaving and recording do not.
pub fn is_work(step: &Step) -> bool
    ensures { result ≡ counts_as_work step.now }
{
    !matches!(
        step,
        Step::Enter(_) | Step::Leave(_) | Step::TEnter(_) | Step::TLeave(_) | Step::Record(_)
    )
}

/// Whether a step was not enabled.
pub fn is_idle(answer: &Answer) -> bool
    ensures { result ≡ was_idle answer.now }
{
    matches!(answer, Answer::Idle(_))
}
