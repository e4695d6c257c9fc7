//! The types and definitions that the other crates share.
#![tactic(auto)]

mod app;
mod choice;
mod command;
mod counter;
mod cpu_mask;
mod decimal;
mod division;
mod even;
mod filter;
mod flow;
mod hash_place;
mod idle;
mod ids;
mod journal;
mod journals;
mod laws;
mod limits;
mod list;
mod memory;
mod packet;
mod put;
mod step;

pub use app::app_of;
pub use choice::{Choice, Chosen, Entry, Why};
pub use command::{Answer, Busy, Command, Refused, User};
pub use counter::{MOST_PAST, number_at, reached, round_up};
pub use cpu_mask::CpuMask;
pub use decimal::decimal_number;
pub use division::remainder;
pub use even::even_entries;
pub use filter::Filter;
pub use flow::{Flow, Pair, Proto};
pub use hash_place::place_of_hash;
pub use idle::Idle;
pub use ids::{AppId, Cpu, PacketId, RxQueue, TxQueue};
pub use journal::Journal;
pub use journals::Journals;
pub use laws::{
    a_class_moves_in_three_cases_alone, a_number_tells_its_count, numbers_compare_as_counts,
    rounded_sizes_are_numbers,
};
pub use limits::{FLOW_LIMIT_BUCKETS, MAX_FLOW_COUNT, MAX_PACKETS, MAX_SOCKET_SIZE};
pub use list::List;
pub use memory::OutOfMemory;
pub use packet::Packet;
pub use put::{DropCause, LaneDrop, Put};
pub use step::{Detach, Step};
