//! Delivery in order on a board that threads share: over an order of all steps, and from the seats'
//! own lists once the board is closed.
#![tactic(auto)]

mod closing_laws;
mod order_laws;

pub use closing_laws::{
    flows_of_closings_are_in_order, packets_are_put_once, turns_know_their_settings,
};
pub use order_laws::{
    commands_empty_their_lanes, flows_are_delivered_in_order, goals_are_online, settings_steer,
};
