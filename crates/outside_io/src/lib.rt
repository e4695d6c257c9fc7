//! Traits for reading files by name and writing byte streams, with implementations over the
//! operating system and in memory.
#![tactic(auto)]

mod buffered_sink;
mod desk;
mod failures;
mod file_desk;
mod folder;
mod ghost_bytes;
mod memory_desk;
mod memory_sink;
mod reading;
mod retrying;
mod sink;
mod std_sink;
mod sure_desk;
mod sure_sink;
mod writing;

pub use buffered_sink::BufferedSink;
pub use desk::{Begin, Desk, Got};
pub use file_desk::FileDesk;
pub use memory_desk::MemoryDesk;
pub use memory_sink::MemorySink;
pub use reading::{MAX_FILE, ReadWhole, read_whole};
pub use sink::{Sink, Took};
pub use std_sink::StdSink;
pub use sure_desk::SureDesk;
pub use sure_sink::SureSink;
pub use writing::{WriteFault, write_whole};
