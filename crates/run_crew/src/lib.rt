//! All workers of a run together: the sweep that ends it, what the wire says at the hint words, the
//! coupling of the actors' records with the boards, and what the records say at the closing.
#![tactic(auto)]

mod counts;
mod coupling_laws;
mod laws;
mod rounds;
mod seated;

pub use coupling_laws::{
    applications_are_coupled, pollers_are_coupled, stores_are_meant, the_wire_keeps_its_coupling,
};
pub use laws::{
    applications_keep_their_coupling, crews_go_on, crews_have_turns, crews_learn_arrivals,
    drains_keep_their_coupling, ended_runs_are_runs, finished_crews_are_full, full_counts_suffice,
    queues_keep_their_coupling, threads_keep_their_parts,
};
pub use rounds::sweep;
pub use seated::Seated;
