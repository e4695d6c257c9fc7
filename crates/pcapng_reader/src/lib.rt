//! Reads and writes captures of Ethernet frames in the pcapng file format, version 1.
#![tactic(auto)]

mod block;
mod content;
mod fault;
mod laws;
mod numbers;
mod place;
mod read;
mod reader;
mod section;
mod walker;
mod write;

pub use fault::NgFault;
pub use laws::{
    a_block_is_four_pieces, a_block_is_read_as_written, a_file_is_read_as_written,
    a_walker_passes_blocks, frames_are_read_back, one_capture_or_fault,
};
pub use read::{is_pcapng, read_ng};
pub use walker::{NgNext, NgWalker};
pub use write::{put_enhanced, put_section};
