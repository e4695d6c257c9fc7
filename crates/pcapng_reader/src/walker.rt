//! Walks over the blocks of a file whose bytes come in pieces.
ghost use Rattle.std.specs.Prelude.{◌≡◌, ◌≢◌, ◌≤◌, ◌+◌, ◌++◌, ◌<◌, ◌^◌, [], List, ℕ, length};
ghost use Rattle.std.specs.Prelude.{OnOk, IfOk, IfErr, false};
ghost use Rattle.pcapng_reader.specs.declared.fault.NgFault.TheVariants.{OutOfMemory as NoMemory};
ghost use Rattle.pcapng_reader.specs.Captures.{no_section, file_start, order_in, BeginsNg};
ghost use Rattle.pcapng_reader.specs.Captures.{HasNgFault};
ghost use Rattle.pcapng_reader.specs.Walkers.{Passed, Finds, GoesOn};
ghost use Rattle.pcapng_reader.specs.Readers.{HasRoom, BeginsBehind, next_of, PassesBlock};

use crate::block::{Block, block_at};
use crate::content::Content;
use crate::fault::NgFault;
use crate::place::Place;
use crate::section::{Interfaces, Section};
use std::alloc::Global;
use steer_base::OutOfMemory;

/// A walk over the blocks of a file. It knows the section and the place of the next block, and
/// keeps no packet.
#[derive(Drop)]
pub struct NgWalker {
    /// The section of the next block.
    pub section: Section,
    /// Where the next block is.
    pub place: Place,
    /// The byte order of the first section, `true` if it is big-endian.
    pub big: bool,
}

/// What is at the front of a window of a file's bytes.
#[derive(Clone, Copy, Debug, PartialEq, Eq)]
pub enum NgNext {
    /// A block of `size` bytes with a packet, whose frame is the `len` bytes from offset `start` of
    /// the window on.
    Frame {
        start: usize,
        len: usize,
        size: usize,
    },
    /// A block of `size` bytes without a packet.
    Other {
        size: usize,
    },
    /// No whole block: the window is empty, or ends within its first block.
    Incomplete,
}

impl NgWalker {
    /// A walker that has passed nothing. Allocates nothing.
    pub fn new(alloc: Global) -> Self
        ensures section { result.section ≡ no_section }
        ensures place { result.place ≡ file_start }
        ensures order { result.big ≡ false }
        ensures passed { (bytes : List ℕ) → Passed result bytes [] bytes }
    {
        NgWalker {
            section: Section {
                big: false,
                interfaces: Interfaces::new(alloc),
            },
            place: Place {
                block: 0,
                packets: 0,
                start: 0,
            },
            big: false,
        }
    }

    /// Passes the block at the front of the window, which begins with the first byte that was not
    /// passed, and says where the block's frame is. If the window ends within the block, the walker
    /// stays as it was. A fault is one of the file, whatever follows the window. Allocates memory
    /// for the interfaces of a section.
    pub fn next(&mut self, window: &[u8]) -> Result<NgNext, NgFault>
        requires fits { self.old.place.start + length window.now < 2 ^ 64 }
        requires blocks { self.old.place.block ≤ self.old.place.start }
        ensures finds { IfOk result (Finds self.old self.new window.now) }
        ensures passed { (bytes : List ℕ) (frames : List (List ℕ))
            → Passed self.old bytes frames window.now
            → IfOk result (GoesOn self.new bytes frames window.now) }
        ensures fault { (bytes more : List ℕ) (frames : List (List ℕ))
            → Passed self.old bytes frames window.now → BeginsNg bytes
            → IfErr result (λ e. e ≢ NoMemory → HasNgFault (bytes ++ more) e) }
    {
        let before = self.place;
        let Some(block) = block_at(&self.section, self.place, window)? else {
            return Ok(NgNext::Incomplete);
        };
        self.pass(block)?;
        Ok(next_of(before, block))
    }

    /// Moves past a complete block.
    pub(crate) fn pass(&mut self, block: Block) -> Result<(), OutOfMemory>
        requires blocks { self.old.place.block + 1 < 2 ^ 64 }
        requires packets { HasRoom self.old.place block.content }
        requires bytes { self.old.place.start + block.len < 2 ^ 64 }
        ensures { OnOk result (PassesBlock self.old block self.new) }
    {
        if self.place.block == 0 {
            self.big = is_big(block.content);
        }
        match block.content {
            Content::Section { big } => {
                self.section.big = big;
                self.section.interfaces.clear();
            }
            Content::Interface(interface) => self.section.interfaces.push(interface)?,
            Content::Packet(_) => self.place.packets += 1,
            Content::Other => {}
        }
        self.place.block += 1;
        self.place.start += block.len as usize;
        Ok(())
    }
}

/// What a window begins with, if a complete block is at its front.
fn next_of(before: Place, block: Block) -> NgNext
    requires { BeginsBehind before block.content }
    ensures { result ≡ next_of before block }
{
    let size = block.len as usize;
    match block.content {
        Content::Packet(record) => NgNext::Frame {
            start: record.start - before.start,
            len: record.len as usize,
            size,
        },
        _ => NgNext::Other { size },
    }
}

/// The byte order that a section header announces, `false` for every other block.
fn is_big(content: Content) -> bool
    ensures { result ≡ order_in content }
{
    match content {
        Content::Section { big } => big,
        _ => false,
    }
}
