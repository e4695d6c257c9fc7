//! The board of atomic words: lanes, heads, a gate and settings that threads share without a lock.
#![tactic(auto)]

mod board;
mod calls;
mod closer;
mod closing;
mod holds;
mod laws;
mod left;
mod making;
mod packets;
mod places;
mod plays;
mod release;
mod rule;
mod slots;
mod spare;
mod steps;
mod visits;

pub use board::Board;
pub use laws::contended_words_lie_apart;
