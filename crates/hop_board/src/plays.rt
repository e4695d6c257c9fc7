//! The kinds of steps of a seat at a board. The ghost members are chosen at each call.
ghost use Rattle.std.specs.Prelude.{ℕ};

use board_api::LaneId;
use hop_rule::{BoardStep, Slot};
use linearization::{Making, Moving};
use std::marker::{Brand, PhantomData};

/// A step at a word that leaves the slots as they are.
pub trait Told {
    ghost use Rattle.hop_rule.specs.declared.step.BoardStep.{BoardStep};

    // The step that is added, by the word that was found.
    ghost makes: { ℕ → BoardStep };
    // What the step shows of the word that was found.
    ghost says: { ℕ → Type 0 };
}

impl Told for Brand {
    ghost use Rattle.hop_rule.specs.declared.step.BoardStep.TheVariants.{Gate};
    ghost use Rattle.hop_rule.specs.declared.step.GateStep.TheVariants.{Left};

    ghost makes = { λ n. Gate Left };

    ghost says = { λ n. Unit {0} };
}

/// The play of such a step.
pub struct Adds<J> {
    of: PhantomData<J>,
}

impl<J: Told> Making<Option<Slot>, BoardStep> for Adds<J> {
    ghost makes = { λ st n. J.makes n };

    ghost tells = { λ st n order. J.says n };
}

/// A hold of a lane, which succeeds if no seat holds it.
pub trait Taken {
    ghost use Rattle.board_api.specs.declared.held_lane.LaneId.{LaneId};

    // The lane.
    ghost lane: { LaneId };
}

impl Taken for Brand {
    ghost use Rattle.board_api.specs.declared.held_lane.LaneId.TheVariants.{Middle};

    ghost lane = { Middle 0 };
}

/// The play of a hold.
pub struct Holds<J> {
    of: PhantomData<J>,
}

impl<J: Taken> Moving<Option<Slot>, BoardStep> for Holds<J> {
    ghost use Rattle.hop_board.specs.Plays.{HoldsThen};

    ghost moved = { HoldsThen J.lane };
}

/// The play that gives an emptied slot back.
pub struct Empties;

impl Moving<Option<Slot>, BoardStep> for Empties {
    ghost use Rattle.hop_board.specs.Plays.{EmptiesThen};

    ghost moved = { EmptiesThen };
}

/// The play that takes an emptied slot again.
pub struct Fills;

impl Moving<Option<Slot>, BoardStep> for Fills {
    ghost use Rattle.hop_board.specs.Plays.{FillsThen};

    ghost moved = { FillsThen };
}

/// A release: a lane is given back with its slot.
pub trait Given {
    ghost use Rattle.hop_rule.specs.declared.step.BoardStep.{BoardStep};

    // The step that gives it back.
    ghost step: { BoardStep };
    // What the step shows.
    ghost says: { Type 0 };
}

impl Given for Brand {
    ghost use Rattle.hop_rule.specs.declared.step.BoardStep.TheVariants.{Lane};
    ghost use Rattle.hop_rule.specs.declared.step.LaneStep.TheVariants.{OutFreed};

    ghost step = { Lane (OutFreed 0) };

    ghost says = { Unit {0} };
}

/// The play of a release.
pub struct Frees<J> {
    of: PhantomData<J>,
}

impl<J: Given> Moving<Option<Slot>, BoardStep> for Frees<J> {
    ghost use Rattle.hop_board.specs.Plays.{GivesThen};

    ghost moved = { GivesThen J.step J.says };
}
