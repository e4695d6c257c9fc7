//! A history beside what its clauses speak of.
ghost use Rattle.history.specs.Known.{IsKnown};
ghost use Rattle.std.specs.Prelude.{◌≡◌};
ghost use Rattle.steer_model.specs.State.Start.{initial_settings, setup_of};

use history::{History, Known};
use plan_reader::Plan;
use steer_model::{Given, InForce};

/// A history with the place of each packet, its plan with its first settings, and the packets of
/// its capture.
#[derive(Drop)]
pub struct Case<'a> {
    /// The plan of the run.
    pub plan: &'a Plan,
    /// What the plan and the capture fix.
    pub given: &'a Given,
    /// The settings that the plan begins with.
    pub settings: &'a InForce,
    /// The history.
    pub h: &'a History,
    /// What its lists say about each packet.
    pub known: &'a Known,
    pub ghost is_known: { IsKnown h.now known.now },
    pub ghost is_setup: { given.now ≡ setup_of plan.now given.now.packets given.now.cut },
    pub ghost is_initial: { settings.now ≡ initial_settings plan.now },
}
