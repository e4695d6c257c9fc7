//! What the machine reads from the answers of a hop.
ghost use Rattle.std.specs.Prelude.{◌≡◌};
ghost use Rattle.steer_model.specs.Steps.Outcomes.{told as told_by};
ghost use Rattle.steer_model.specs.Steps.Pollers.{put_position as position_in};

use hop_model::HopAnswer;
use steer_base::{Answer, Put};

/// The machine's answer for an answer of a hop: the reason for which the event was idle, otherwise
/// done.
pub fn told(answer: HopAnswer) -> Answer
    ensures { result ≡ told_by answer }
{
    match answer {
        HopAnswer::Idle(why) => Answer::Idle(why),
        _ => Answer::Done,
    }
}

/// The position at which a put was accepted, a wrapping counter number; none if it was not.
pub fn position_of(answer: &HopAnswer) -> Option<u32>
    ensures { result ≡ position_in answer.now }
{
    match answer {
        HopAnswer::Went(Put::At(position)) => Some(*position),
        _ => None,
    }
}
