//! One steered hop: the way of packets from their arrival at a producer to delivery in an out lane.
#![tactic(auto)]

mod hop;
mod lanes;
mod laws;
mod left;
mod shared;
mod state_laws;
mod tables;

pub use hop::Hop;
pub use laws::{
    a_choice_is_decided_by_its_kept_head, a_round_retires_one_packet, ample_lanes_drop_nothing,
    each_choice_is_by_the_rule, each_drop_is_explained, each_event_keeps_flows,
    each_event_keeps_order, each_packet_has_one_place, emptied_answers_exactly,
    every_event_keeps_a_hop_sound, lists_of_events_are_joined, order_holds_from_end_to_end,
    pairs_in_order_make_a_prefix, the_gate_answers_exactly, tight_sets_are_delivered_in_order,
    work_goes_on_and_is_bounded,
};
pub use left::{HopLists, LeftLane};
pub use state_laws::{
    counts_of_drops_never_fall, each_event_is_one_of_the_bare_part, each_event_leaves_the_rest,
    nothing_is_lost, settled_hops_let_flows_pass,
};
