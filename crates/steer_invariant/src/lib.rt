//! The invariant of the machine: what holds after any steps, and that every step preserves it.
#![tactic(auto)]

mod invariant_laws;
mod step_invariant_laws;

pub use invariant_laws::{
    a_machine_has_a_history_to_report, a_machine_may_ask_its_hops, every_command_keeps_the_machine,
    every_replay_can_be_reported, every_step_keeps_the_machine,
};
pub use step_invariant_laws::{gates_are_open_between_steps, steps_keep_the_invariant};
