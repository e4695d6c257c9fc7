//! Reads the frames of a capture file in pieces, without holding the file.
#![tactic(auto)]

mod classic;
mod fault;
mod pcapng;
mod reading;
mod walk;
mod window;

pub use fault::StreamFault;
pub use reading::read_frames;
