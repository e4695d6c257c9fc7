//! The choices of a producer, one after the other.
ghost use Rattle.std.specs.Prelude.{◌≡◌, Option, true};
ghost use Rattle.steer_base.specs.declared.choice.Chosen.{Chosen as AChosen};
ghost use Rattle.dev_flow_table.specs.Tables.{IsClassOf};
ghost use Rattle.rule_check.specs.Turns.{AreByTurns, Questions};

use crate::weighing::{Question, is_turn};
use dev_flow_table::DevTable;
use steer_base::{Chosen, CpuMask};

/// What the rule is asked with for each choice of a producer.
pub trait Producer {
    ghost questions: { Self → Questions };

    fn question(&self, chosen: Chosen) -> Question
        ensures class { result.class ≡ (questions self.now).class chosen }
        ensures want { result.want ≡ (questions self.now).want chosen }
        ensures desired { result.desired ≡ (questions self.now).desired chosen }
        ensures position { result.position ≡ (questions self.now).position chosen };

    fn online(&self) -> CpuMask
        ensures { result ≡ (questions self.now).online };
}

// Whether all choices of a producer are by the rule, from a table on.
pub fn are_by_rule<P: Producer>(table: &mut DevTable, choices: &[Chosen], producer: &P) -> bool
    requires { (c : AChosen) → IsClassOf table.old ((P.questions producer.now).class c) }
    ensures yes { result ≡ true → AreByTurns (P.questions producer.now) table.old choices.now }
    ensures no { AreByTurns (P.questions producer.now) table.old choices.now → result ≡ true }
{
    for chosen in choices {
        if !is_turn(
            table,
            *chosen,
            producer.question(*chosen),
            producer.online(),
        ) {
            return false;
        }
    }
    true
}
