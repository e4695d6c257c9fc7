//! Reads and writes captures of Ethernet frames in the classic pcap file format, version 2.4.
#![tactic(auto)]

mod capture;
mod fault;
mod frame_sink;
mod front;
mod header;
mod laws;
mod limits;
mod read;
mod record;
mod records;
mod write;

pub use capture::Capture;
pub use fault::CaptureFault;
pub use frame_sink::FrameSink;
pub use front::{Front, RECORD_HEADER};
pub use header::{FILE_HEADER, Format, read_header};
pub use laws::{captures_read_back, one_capture_or_fault};
pub use limits::{LINKTYPE_ETHERNET, MAX_FRAME};
pub use read::read_capture;
pub use record::PcapRecord;
pub use records::Records;
pub use write::{put_header, put_packet};
