//! The block at one place of a pcapng file.
ghost use Rattle.std.specs.Prelude.{◌≡◌, ◌≤◌, ◌+◌, ◌<◌, ◌^◌, length, IfOk, IfNone};
ghost use Rattle.pcapng_reader.specs.Blocks.{order_of, block_in, block_at};

use crate::content::{Content, SECTION_HEADER, content_at, is_len};
use crate::fault::NgFault;
use crate::numbers::u32_at;
use crate::place::Place;
use crate::section::Section;

/// The number of bytes of a block without a body: its type and twice its total length.
const EMPTY_BLOCK: usize = 12;

/// The byte-order magic of a section header, read in the byte order that it announces.
const BYTE_ORDER_MAGIC: u32 = 0x1a2b_3c4d;

/// A complete block.
#[derive(Clone, Copy, Debug, PartialEq, Eq)]
pub struct Block {
    /// Its total length in bytes.
    pub len: u32,
    /// Its content.
    pub content: Content,
}

/// The byte order of the block at the front, `None` for a section header that fits neither.
#[tactic(auto, unfolding(crate::specs::Blocks::order_of))]
fn order_of(section: &Section, rest: &[u8]) -> Option<bool>
    requires { 12 ≤ length rest.now }
    ensures { result ≡ order_of section.now rest.now }
{
    if u32_at(section.big, 0, rest) != SECTION_HEADER {
        return Some(section.big);
    }
    if u32_at(false, 8, rest) == BYTE_ORDER_MAGIC {
        return Some(false);
    }
    if u32_at(true, 8, rest) == BYTE_ORDER_MAGIC {
        return Some(true);
    }
    None
}

/// The block at the front, of this byte order.
#[tactic(auto, unfolding(crate::specs::Blocks::block_in))]
fn block_in(
    section: &Section,
    place: Place,
    big: bool,
    rest: &[u8],
) -> Result<Option<Block>, NgFault>
    requires begun { 12 ≤ length rest.now }
    requires fits { place.start + length rest.now < 2 ^ 64 }
    ensures block { result ≡ block_in section.now place big rest.now }
    ensures short { IfOk result (λ found. IfNone found (length rest.now < 2 ^ 32)) }
{
    let kind = u32_at(section.big, 0, rest);
    let len = u32_at(big, 4, rest);
    if !is_len(kind, len) {
        return Err(NgFault::BadBlock {
            block: place.block,
            len,
        });
    }
    if len as usize > rest.len() {
        return Ok(None);
    }
    let tail = u32_at(big, len as usize - 4, rest);
    if tail != len {
        return Err(NgFault::BadTail {
            block: place.block,
            len: tail,
        });
    }
    let content = content_at(section, place, kind, big, len, rest)?;
    Ok(Some(Block { len, content }))
}

/// The block at the front of the rest of a file, which begins at `place`, or `None` if the file
/// ends within it.
#[tactic(auto, unfolding(crate::specs::Blocks::block_at))]
pub fn block_at(section: &Section, place: Place, rest: &[u8]) -> Result<Option<Block>, NgFault>
    requires { place.start + length rest.now < 2 ^ 64 }
    ensures block { result ≡ block_at section.now place rest.now }
    ensures short { IfOk result (λ found. IfNone found (length rest.now < 2 ^ 32)) }
{
    if rest.len() < EMPTY_BLOCK {
        return Ok(None);
    }
    let Some(big) = order_of(section, rest) else {
        return Err(NgFault::BadOrder {
            magic: u32_at(false, 8, rest),
        });
    };
    block_in(section, place, big, rest)
}
