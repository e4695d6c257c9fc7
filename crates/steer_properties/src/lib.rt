//! What the history of every replay says: choices by the rule, delivery in order, sweeps that end.
#![tactic(auto)]

mod compound_laws;
mod delivery_laws;
mod laws;
mod sweep_laws;

pub use compound_laws::{a_drain_empties_its_processor, a_ship_empties_its_transmit_queue};
pub use delivery_laws::every_replay_delivers_in_order;
pub use laws::{
    a_flow_moves_only_where_nothing_of_it_is_outstanding, commands_are_given_once,
    every_choice_is_by_the_rule, every_command_is_answered, every_history_is_of_its_input,
    every_queue_was_seen, every_replay_is_good_so_far, every_reply_is_by_the_rule,
    every_write_is_of_a_packet, heads_never_fall, swept_replays_are_good_at_rest,
};
pub use sweep_laws::{
    a_sweep_ends_at_rest, packets_go_all_their_way_at_rest, swept_machines_have_swept_histories,
};
