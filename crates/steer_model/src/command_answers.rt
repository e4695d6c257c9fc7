//! How commands are answered.
ghost use Rattle.std.specs.Prelude.{◌≡◌};
ghost use Rattle.steer_model.specs.Steps.Commands.{is_done as was_done};
ghost use Rattle.steer_model.specs.Steps.Commands.{refused_answer as refused_with};

use steer_base::{Answer, Idle, Refused};

/// The answer to a command that is refused.
pub fn refused_answer(why: &Refused) -> Answer
    ensures { result ≡ refused_with why.now }
{
    match why {
        Refused::CpuInUse(user) => Answer::CpuInUse(*user),
        Refused::CpuOffline => Answer::CpuOffline,
        Refused::AlreadyOnline => Answer::Idle(Idle::AlreadyOnline),
    }
}

/// Whether a command with this answer was done.
pub fn is_done(answer: &Answer) -> bool
    ensures { result ≡ was_done answer.now }
{
    matches!(answer, Answer::Done | Answer::Expired(_))
}
