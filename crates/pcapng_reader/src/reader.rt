//! The part of a file that was read so far.
ghost use Rattle.std.specs.Prelude.{◌≡◌, ◌+◌, ◌<◌, ◌^◌, [], OnOk, false};
ghost use Rattle.pcapng_reader.specs.Captures.{no_section, file_start};
ghost use Rattle.pcapng_reader.specs.Readers.{HasRoom, TakesIn, ng_capture_of};

use crate::block::Block;
use crate::content::Content;
use crate::walker::NgWalker;
use pcap_reader::{Capture, Records};
use std::alloc::Global;
use steer_base::OutOfMemory;

/// What was read of a file so far.
#[derive(Drop)]
pub struct Reader {
    /// The walk over the blocks so far.
    pub walker: NgWalker,
    /// The packets so far.
    pub records: Records,
}

impl Reader {
    /// A reader that has read nothing. Allocates nothing.
    pub fn new(alloc: Global) -> Self
        ensures section { result.walker.section ≡ no_section }
        ensures place { result.walker.place ≡ file_start }
        ensures records { result.records ≡ [] }
        ensures order { result.walker.big ≡ false }
    {
        Reader {
            walker: NgWalker::new(alloc),
            records: Records::new(alloc),
        }
    }

    /// Moves past a complete block, and keeps its packet.
    pub fn take_in(&mut self, block: Block) -> Result<(), OutOfMemory>
        requires blocks { self.old.walker.place.block + 1 < 2 ^ 64 }
        requires packets { HasRoom self.old.walker.place block.content }
        requires bytes { self.old.walker.place.start + block.len < 2 ^ 64 }
        ensures { OnOk result (TakesIn self.old block self.new) }
    {
        self.walker.pass(block)?;
        match block.content {
            Content::Packet(record) => self.records.push(record)?,
            _ => {}
        }
        Ok(())
    }

    /// The capture of what was read, with the number of bytes of a truncated last block.
    pub fn ends(self, cut: Option<u32>) -> Capture
        ensures { result ≡ ng_capture_of self cut }
    {
        let Reader { walker, records } = self;
        Capture {
            big: walker.big,
            nano: false,
            records,
            cut,
        }
    }
}
