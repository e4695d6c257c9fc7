//! Laws of the model's steps: when a step is idle, and where each value in force comes from.
#![tactic(auto)]

mod laws;

pub use laws::{
    a_hand_has_one_packet, a_refused_command_leaves_all, a_step_is_idle_for_its_first_reason,
    a_table_in_force_is_the_last_writes, a_value_in_force_is_the_last_write,
    an_idle_step_leaves_all, settings_follow_the_commands,
};
