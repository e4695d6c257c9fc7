//! The calls of a board for the threads that steer, as a trait: the steps that each call adds to
//! its seat's own list, and lemmas on all lists at the closing.
#![tactic(auto)]

mod answers;
mod board;
mod board_seat;
mod forward;
mod held_lane;
mod laws;
mod lists;
mod own_laws;
mod words;

pub use answers::{CloseAnswer, Emptied, EnterAnswer, Hold, Pull};
pub use board::Board;
pub use board_seat::BoardSeat;
pub use forward::Forward;
pub use held_lane::{HeldLane, LaneId};
pub use laws::{
    all_lanes_are_left, counts_are_sums_over_seats, deliveries_and_places_agree,
    drops_have_their_causes, each_lawful_order_may_close, emptied_lanes_stand_first,
    holds_find_fronts, lanes_are_served_in_order, loaded_heads_are_passed, loaded_heads_rise,
    loaded_tails_rise, outs_are_sums_over_seats, puts_and_positions_agree,
    visits_read_the_closers_settings,
};
pub use lists::BoardLists;
pub use own_laws::{
    a_read_has_its_visits_number, a_step_has_its_number, a_taken_lane_is_held, quiet_steps_stay,
};
pub use words::{GateWord, HeadWord, LaneWord};
