//! The first clause that a history fails.
ghost use Rattle.std.specs.Prelude.{◌≡◌, ◌≤◌, [], IfOk, None, length};
ghost use Rattle.std.specs.Option.{ForSome};
ghost use Rattle.history.specs.Regular.{Regular};
ghost use Rattle.plan_reader.specs.Ranges.{commands_of};
ghost use Rattle.steer_base.specs.declared.limits.TheConstants.{MAX_PACKETS};
ghost use Rattle.steer_model.specs.State.Ranges.{AreOfFlows};
ghost use Rattle.good_check.specs.Cases.{input};
ghost use Rattle.good_check.specs.Faults.{HasFirstFault, HasNoFault};

use crate::case::Case;
use history::{History, Known};
use plan_reader::Plan;
use std::alloc::Global;
use steer_base::{OutOfMemory, Packet};
use steer_model::{Given, InForce};

/// The number of clauses of a good history.
const CLAUSES: u8 = 11;

/// The number of the clause that speaks of commands.
const COMMANDS: u8 = 10;

impl Case<'_> {
    ghost use Rattle.std.specs.Prelude.{ℕ, ◌≡◌, ◌≤◌, [], IfOk, None, true};
    ghost use Rattle.std.specs.Option.{ForSome};
    ghost use Rattle.plan_reader.specs.Ranges.{commands_of};
    ghost use Rattle.steer_model.specs.Good.GoodHistory.{Clause};
    ghost use Rattle.good_check.specs.Cases.{IsPlain, input_of};
    ghost use Rattle.good_check.specs.Faults.{FirstFault, HoldBefore};
    ghost use Rattle.good_check.specs.declared.faults.TheConstants.{CLAUSES};

    // Whether a clause holds, if all before it do. Without commands clause 10 always does.
    fn holds(&self, alloc: Global, clause: u8) -> Result<bool, OutOfMemory>
        requires plain { IsPlain self.now }
        requires commands { commands_of self.now.plan.now.steps ≡ [] }
        requires some { 1 ≤ clause }
        requires within { clause ≤ CLAUSES }
        requires earlier { HoldBefore clause (input_of self.now) self.now.h.now }
        ensures yes { IfOk result (λ r. r ≡ true
            → Clause clause (input_of self.now) self.now.h.now) }
        ensures no { IfOk result (λ r. Clause clause (input_of self.now) self.now.h.now
            → r ≡ true) }
    {
        match clause {
            1 => Ok(self.has_arrived()),
            2 => self.has_queues(alloc),
            3 => self.has_choices(alloc),
            4 => self.has_wants(alloc),
            5 => self.has_rising_heads(alloc),
            6 => self.has_explained_drops(alloc),
            7 => self.is_steered(alloc),
            8 => Ok(self.is_swept()),
            9 => Ok(self.has_writes()),
            COMMANDS => Ok(true),
            _ => self.has_replies(alloc),
        }
    }

    // The first clause that the history fails.
    fn first_fault(&self, alloc: Global) -> Result<Option<u8>, OutOfMemory>
        requires plain { IsPlain self.now }
        requires commands { commands_of self.now.plan.now.steps ≡ [] }
        ensures fault { IfOk result (λ found. ForSome found (λ n.
            FirstFault n (input_of self.now) self.now.h.now)) }
        ensures none { IfOk result (λ found. found ≡ None
            → (n : ℕ) → Clause n (input_of self.now) self.now.h.now) }
    {
        for clause in 1..CLAUSES + 1 {
            if !self.holds(alloc, clause)? {
                return Ok(Some(clause));
            }
        }
        Ok(None)
    }
}

/// The first clause of a good history that a regular history fails, for a plan without commands
/// and the packets of a capture: 10 if the history has a command, otherwise the least number of
/// a clause that does not hold. Nothing if each clause holds.
///
/// # Errors
///
/// `OutOfMemory`, and nothing else.
pub fn first_fault(
    alloc: Global,
    plan: &Plan,
    packets: &[Packet],
    cut: Option<u32>,
    h: &History,
) -> Result<Option<u8>, OutOfMemory>
    requires commands { commands_of plan.now.steps ≡ [] }
    requires few { length packets.now ≤ MAX_PACKETS }
    requires flows { AreOfFlows packets.now }
    requires regular { Regular packets.now (length plan.now.apps) h.now }
    ensures fault { IfOk result (λ found. ForSome found (λ n.
        HasFirstFault (input plan.now packets.now cut) h.now n)) }
    ensures none { IfOk result (λ found. found ≡ None
        → HasNoFault (input plan.now packets.now cut) h.now) }
{
    if h.commands.len() > 0 {
        return Ok(Some(COMMANDS));
    }
    let given = Given::of_plan(alloc, plan, packets, cut)?;
    let settings = InForce::of_plan(alloc, plan)?;
    let known = Known::make(alloc, h)?;
    let case = Case {
        plan,
        given: &given,
        settings: &settings,
        h,
        known: &known,
    };
    case.first_fault(alloc)
}
