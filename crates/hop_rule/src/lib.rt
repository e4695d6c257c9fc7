//! The rule of a board of atomic words: the lawful orders of all threads' steps at its lanes,
//! heads, gate and settings, and what each of them implies.
#![tactic(auto)]

mod laws;
mod out_lane;
mod sizes;
mod step;
mod wrong_orders;

pub use laws::{
    a_busy_gate_or_lane_was_busy, a_held_lane_is_as_its_holder_found_it, a_loaded_head_was_passed,
    a_visit_sees_one_list_of_settings, an_emptied_lane_stands_first,
    deliveries_and_places_are_one_to_one, drops_are_explained, each_step_is_one_event_or_none,
    heads_follow_deliveries, lanes_deliver_in_order, loaded_tails_count_packets,
    own_steps_stand_in_the_order, parts_of_an_order_are_lawful, puts_and_positions_are_one_to_one,
    the_gate_word_counts_visits,
};
pub use out_lane::OutLane;
pub use sizes::{BoardSizes, MAX_BOARD_ROOM, MAX_OPENINGS};
pub use step::{BoardStep, Change, GateStep, LaneStep, Slot};
pub use wrong_orders::{
    a_head_is_raised_after_its_delivery, a_pull_is_of_the_oldest_packet,
    a_put_is_into_the_held_lane, a_setting_is_made_in_a_closed_gate,
    a_visit_reads_one_value_of_a_setting,
};
