//! Lemmas on the moves of classes: functions without code whose contracts state them.
ghost use Rattle.std.specs.Prelude.{ℕ};
ghost use Rattle.steer_base.specs.declared.choice.Choice.{Choice as AChoice};
ghost use Rattle.dev_flow_table.specs.Tables.{Table};
ghost use Rattle.dev_flow_table.specs.Moves.{ChoiceIsRecorded, ClassMovesByThree, LeavesOthers};
ghost use Rattle.dev_flow_table.specs.Moves.{MoveHasItsReason};

/// Lemma: a choice by the rule moves its class if and only if one of the three conditions of the
/// kernel's scaling chapter holds: the class has no lane, or another one than the desired that is
/// offline or whose head has reached the recorded tail. A move is to the desired lane, and without
/// one the class keeps its lane. The reason that the choice gives is true, and the table then has
/// the chosen lane.
pub fn a_class_moves_by_three_conditions()
    ensures moves { ClassMovesByThree }
    ensures reason { MoveHasItsReason }
    ensures recorded { ChoiceIsRecorded }
{}

/// Lemma: a choice for a class leaves the entries of all others.
pub fn a_choice_leaves_other_classes()
    ensures { (table : Table) (class : ℕ) (choice : AChoice) → LeavesOthers table class choice }
{}
