//! A worker of a run: a thread that plays some of its pollers, processors, applications and
//! transmit queues, in turns.
#![tactic(auto)]

mod drain;
mod finish;
mod hand_laws;
mod holding;
mod kept_maps;
mod laws;
mod poller;
mod record_laws;
mod server;
mod stage;
mod tally;
mod work;
mod worker;

pub use drain::{Drain, Exit};
pub use hand_laws::{
    applications_stay_at_their_seats, drains_stay_beside_others, polls_stay_at_their_seats,
    turns_go_on,
};
pub use holding::hold;
pub use kept_maps::KeptMaps;
pub use laws::{arrivals_become_known, free_workers_rest, loaded_counts_hold, workers_begin};
pub use poller::{Poller, Reading};
pub use record_laws::{
    applications_store_writes, calls_add_steps, pollers_begin, pollers_keep_their_turns,
    servers_begin, servers_keep_their_turns,
};
pub use server::Server;
pub use stage::Stage;
pub use tally::{Counter, Tally};
pub use work::{BUSY_IDLE_TURNS, Ended, MAX_IDLE_TURNS};
pub use worker::Worker;
