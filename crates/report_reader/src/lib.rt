//! The sections of a report, read back without a test whether the bytes are one.
#![tactic(auto)]

mod beside;
mod bodies;
mod commands;
mod ends;
mod fields;
mod last;
mod packets;
mod parts;
mod puts;
mod sections;
mod seen;
mod seen_list;
mod sets;
pub mod shelf;
mod shortest;
mod slots;
mod sums;
mod values;

pub use beside::{InTurn, OnThreads, ReadsSections};
pub use bodies::read_texts;
pub use commands::Commands;
pub use fields::Fields;
pub use last::{LastLine, read_last};
pub use packets::{Packets, Replies, SeenPacket, SeenReply};
pub use parts::{Parts, read_parts};
pub use sections::{Part, Section, read_section};
pub use seen_list::SeenList;
pub use slots::{Kind, Seen, Slot, slot_of_kind};
pub use sums::{AppWrite, Cpus, LaneSums, Queues, Txs, Writes};
