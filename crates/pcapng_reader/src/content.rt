//! The content of a complete block, by its type (draft-ietf-opsawg-pcapng, section 4).
ghost use Rattle.std.specs.Prelude.{◌≡◌, ◌≤◌, ◌+◌, ◌<◌, ◌^◌, length, IsTrue};
ghost use Rattle.pcap_reader.specs.declared.limits.TheConstants.{MAX_FRAME};
ghost use Rattle.pcapng_reader.specs.Contents.{ethernet_of, framed, enhanced, simple, content_at};
ghost use Rattle.pcapng_reader.specs.Contents.{least_len, is_len, padded};

use crate::fault::NgFault;
use crate::numbers::{u16_at, u32_at};
use crate::place::Place;
use crate::section::{Interface, Section};
use pcap_reader::{LINKTYPE_ETHERNET, MAX_FRAME, PcapRecord};
use steer_base::MAX_PACKETS;

/// The type of a section header block, the same in both byte orders.
pub const SECTION_HEADER: u32 = 0x0a0d_0d0a;

/// The type of an interface description block.
const INTERFACE: u32 = 1;

/// The type of a simple packet block.
const SIMPLE: u32 = 3;

/// The type of an enhanced packet block.
pub const ENHANCED: u32 = 6;

/// The major version of a section that is read.
const MAJOR: u16 = 1;

/// The offset of an enhanced packet's frame in its block.
const ENHANCED_FRAME: u32 = 28;

/// The offset of a simple packet's frame in its block.
const SIMPLE_FRAME: u32 = 12;

/// The number of bytes of a block's second total length.
const TAIL: u32 = 4;

/// The content of a complete block.
#[derive(Clone, Copy, Debug, PartialEq, Eq)]
pub enum Content {
    /// A new section, in this byte order.
    Section { big: bool },
    /// One more interface of the section.
    Interface(Interface),
    /// A packet.
    Packet(PcapRecord),
    /// A block of another type, which is skipped.
    Other,
}

/// The least number of bytes of a block of this type.
fn least_len(kind: u32) -> u32
    ensures { result ≡ least_len kind }
{
    match kind {
        SECTION_HEADER => 28,
        INTERFACE => 20,
        ENHANCED => 32,
        SIMPLE => 16,
        _ => 12,
    }
}

/// Whether a block of this type may have this total length.
pub fn is_len(kind: u32, len: u32) -> bool
    ensures { result ≡ is_len kind len }
{
    len % 4 == 0 && len >= least_len(kind)
}

/// The length of a frame padded to a multiple of four.
pub fn padded(len: u32) -> u32
    requires { len ≤ MAX_FRAME }
    ensures { result ≡ padded len }
{
    (len + 3) / 4 * 4
}

/// The Ethernet interface with this number, which a packet names.
#[tactic(auto, unfolding(crate::specs::Contents::ethernet_of))]
fn ethernet_of(section: &Section, place: Place, id: u32) -> Result<Interface, NgFault>
    ensures { result ≡ ethernet_of section.now place id }
{
    if place.packets as usize >= MAX_PACKETS {
        return Err(NgFault::TooManyPackets);
    }
    let Some(interface) = section.interfaces.get(id) else {
        return Err(NgFault::BadInterface {
            block: place.block,
            id,
        });
    };
    let link = u32::from(interface.link);
    if link != LINKTYPE_ETHERNET {
        return Err(NgFault::BadNgLink {
            block: place.block,
            link,
        });
    }
    Ok(interface)
}

/// Checks that a packet's frame, which begins at offset `at` of its block, is not too long and
/// fits.
#[tactic(auto, unfolding(crate::specs::Contents::framed))]
fn framed(place: Place, len: u32, at: u32, packet: PcapRecord) -> Result<Content, NgFault>
    requires { at ≤ 28 }
    ensures { result ≡ framed place len at packet }
{
    if packet.len > MAX_FRAME {
        return Err(NgFault::RecordTooLong {
            at: place.packets,
            len: packet.len,
        });
    }
    if at + padded(packet.len) + TAIL > len {
        return Err(NgFault::BadBlock {
            block: place.block,
            len,
        });
    }
    Ok(Content::Packet(packet))
}

/// The content of an enhanced packet block.
#[tactic(auto, unfolding(crate::specs::Contents::enhanced))]
fn enhanced(section: &Section, place: Place, len: u32, block: &[u8]) -> Result<Content, NgFault>
    requires whole { len ≤ length block.now }
    requires least { 32 ≤ len }
    requires fits { place.start + length block.now < 2 ^ 64 }
    ensures { result ≡ enhanced section.now place len block.now }
{
    let big = section.big;
    ethernet_of(section, place, u32_at(big, 8, block))?;
    let packet = PcapRecord {
        sec: u32_at(big, 12, block),
        frac: u32_at(big, 16, block),
        start: place.start + ENHANCED_FRAME as usize,
        len: u32_at(big, 20, block),
        orig: u32_at(big, 24, block),
    };
    framed(place, len, ENHANCED_FRAME, packet)
}

/// The content of a simple packet block. Its interface is the first of the section.
#[tactic(auto, unfolding(crate::specs::Contents::simple))]
fn simple(section: &Section, place: Place, len: u32, block: &[u8]) -> Result<Content, NgFault>
    requires whole { len ≤ length block.now }
    requires least { 16 ≤ len }
    requires fits { place.start + length block.now < 2 ^ 64 }
    ensures { result ≡ simple section.now place len block.now }
{
    let interface = ethernet_of(section, place, 0)?;
    let orig = u32_at(section.big, 8, block);
    let kept = if interface.snap == 0 {
        orig
    } else {
        orig.min(interface.snap)
    };
    let packet = PcapRecord {
        sec: 0,
        frac: 0,
        start: place.start + SIMPLE_FRAME as usize,
        len: kept,
        orig,
    };
    framed(place, len, SIMPLE_FRAME, packet)
}

/// The content of a complete block of this type, with byte order `big` and total length `len`.
#[tactic(auto, unfolding(crate::specs::Contents::content_at))]
pub fn content_at(
    section: &Section,
    place: Place,
    kind: u32,
    big: bool,
    len: u32,
    block: &[u8],
) -> Result<Content, NgFault>
    requires whole { len ≤ length block.now }
    requires sized { IsTrue (is_len kind len) }
    requires fits { place.start + length block.now < 2 ^ 64 }
    ensures { result ≡ content_at section.now place kind big len block.now }
{
    match kind {
        SECTION_HEADER => {
            let major = u16_at(big, 12, block);
            if major != MAJOR {
                return Err(NgFault::BadMajor { major });
            }
            Ok(Content::Section { big })
        }
        INTERFACE => Ok(Content::Interface(Interface {
            link: u16_at(big, 8, block),
            snap: u32_at(big, 12, block),
        })),
        ENHANCED => enhanced(section, place, len, block),
        SIMPLE => simple(section, place, len, block),
        _ => Ok(Content::Other),
    }
}
