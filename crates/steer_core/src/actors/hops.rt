//! What the machine reads from its hops.
ghost use Rattle.std.specs.Prelude.{◌≡◌, ◌<◌, length};
ghost use Rattle.hop_model.specs.Emptied.{emptied};
ghost use Rattle.steer_model.specs.State.Machine.{last_chosen as last_choice_of};
ghost use Rattle.steer_model.specs.Steps.Commands.{gate_answer as answer_at};

use hop_core::Hop;
use steer_base::{Answer, Busy, Choice, Chosen, CpuMask, PacketId, Why};

/// The answer of a hop's gate to a command for which these lanes must be empty: busy if somebody is
/// inside or one of the lanes is not empty, otherwise done.
pub fn gate_answer(hop: &Hop, lanes: CpuMask) -> Answer
    ensures { result ≡ answer_at hop.now (emptied hop.now lanes) }
{
    let inside = hop.inside();
    if inside != 0 {
        return Answer::Busy(Busy::Inside(inside));
    }
    match hop.emptied(lanes) {
        Ok(()) => Answer::Done,
        Err(why) => Answer::Busy(why),
    }
}

/// The last choice of a producer; if it made none, a plain choice of lane 0 for packet 0.
pub fn last_of(hop: &Hop, p: u8) -> Chosen
    requires { p < length hop.now.arrivals }
    ensures { result ≡ last_choice_of hop.now p }
{
    match hop.last_choice(p) {
        Some(chosen) => chosen,
        None => Chosen {
            id: PacketId(0),
            choice: Choice {
                class: None,
                head: None,
                tail: None,
                want: None,
                lane: 0,
                why: Why::Plain,
            },
        },
    }
}
