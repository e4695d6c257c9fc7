//! The threads of a run: what it begins with is made, the wire, the workers and the controller run
//! concurrently, the sweep runs on one thread, and the history of the run is put together.
#![tactic(auto)]

mod actors;
mod board_ends;
mod board_laws;
mod boards;
mod closing;
mod crew;
mod end_laws;
mod ends;
mod lists;
mod parts;
mod posts;
mod round_robin;
mod running;
mod seats;
mod spare;
mod start;
mod start_laws;
mod threads;
mod wire;

pub use running::run_threads;
