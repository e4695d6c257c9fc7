//! Whether a choice is the migration rule's, over a flow table that is told of each choice.
ghost use Rattle.std.specs.Prelude.{◌≡◌, true, Some};
ghost use Rattle.std.specs.Option.{is_some};
ghost use Rattle.steer_base.specs.Choices.{looks_from};
ghost use Rattle.steer_base.specs.Sets.{has};
ghost use Rattle.dev_flow_table.specs.Folds.{after_turn};
ghost use Rattle.dev_flow_table.specs.Tables.{IsClassOf, weighed};
ghost use Rattle.rule_check.specs.Rules.{IsByTable, placed_at};

use crate::same::{same_bytes, same_words};
use dev_flow_table::DevTable;
use steer_base::{Choice, Chosen, CpuMask, Why};

// What the rule is asked with for a choice, and the position at which its packet was accepted, if
// it was.
#[derive(Clone, Copy)]
pub struct Question {
    pub class: Option<u32>,
    pub want: Option<u8>,
    pub desired: u8,
    pub position: Option<u32>,
}

// Whether the rule looks at the head of a class's current lane.
fn looks(current: Option<u8>, desired: u8, online: CpuMask) -> bool
    ensures { result ≡ looks_from current desired (has online) }
{
    match current {
        None => false,
        Some(lane) => lane != desired && online.has(lane),
    }
}

// Whether two reasons are the same.
fn same_why(a: Why, b: Why) -> bool
    ensures yes { result ≡ true → a ≡ b }
    ensures no { a ≡ b → result ≡ true }
{
    match a {
        Why::Plain => matches!(b, Why::Plain),
        Why::Same => matches!(b, Why::Same),
        Why::Unset => matches!(b, Why::Unset),
        Why::Offline => matches!(b, Why::Offline),
        Why::Passed => matches!(b, Why::Passed),
        Why::Kept => matches!(b, Why::Kept),
    }
}

// Whether two choices are the same.
fn same_choice(a: Choice, b: Choice) -> bool
    ensures yes { result ≡ true → a ≡ b }
    ensures no { a ≡ b → result ≡ true }
{
    same_words(a.class, b.class)
        && same_words(a.head, b.head)
        && same_words(a.tail, b.tail)
        && same_bytes(a.want, b.want)
        && a.lane == b.lane
        && same_why(a.why, b.why)
}

// Whether a choice is the rule's, with the head that it keeps. If so, it is recorded in the table.
fn is_choice(table: &mut DevTable, choice: Choice, asked: Question, online: CpuMask) -> bool
    requires { IsClassOf table.old asked.class }
    ensures yes { result ≡ true
        → IsByTable table.old choice asked.class asked.want asked.desired online }
    ensures no { IsByTable table.old choice asked.class asked.want asked.desired online
        → result ≡ true }
    ensures table { result ≡ true → table.new ≡ weighed table.old asked.class choice }
{
    let looked = match asked.class {
        None => false,
        Some(class) => looks(table.current(class), asked.desired, online),
    };
    if choice.head.is_some() != looked {
        return false;
    }
    let made = table.weigh(asked.class, asked.want, asked.desired, choice.head, online);
    same_choice(made, choice)
}

// The same; if so, the position of its packet is recorded in the table too.
pub fn is_turn(table: &mut DevTable, chosen: Chosen, asked: Question, online: CpuMask) -> bool
    requires { IsClassOf table.old asked.class }
    ensures yes { result ≡ true
        → IsByTable table.old chosen.choice asked.class asked.want asked.desired online }
    ensures no { IsByTable table.old chosen.choice asked.class asked.want asked.desired online
        → result ≡ true }
    ensures table { result ≡ true
        → table.new ≡ after_turn table.old (placed_at chosen asked.position) }
{
    if !is_choice(table, chosen.choice, asked, online) {
        return false;
    }
    let Some(class) = asked.class else {
        return true;
    };
    let Some(position) = asked.position else {
        return true;
    };
    table.accepted(class, position);
    true
}
