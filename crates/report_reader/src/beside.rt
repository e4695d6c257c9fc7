//! Two sections that are read beside each other.
ghost use Rattle.std.specs.Prelude.{◌≤◌, IfOk, codes, length};
ghost use Rattle.std.specs.Thread.{IsSync};
ghost use Rattle.report_reader.specs.Sections.{IsRead};
ghost use Rattle.report_reader.specs.Seen.{ShowsPacket, ShowsReply};
ghost use Rattle.report_reader.specs.declared.shortest.TheConstants.{SHORTEST_PACKET};
ghost use Rattle.report_reader.specs.declared.shortest.TheConstants.{SHORTEST_REPLY};

use crate::packets::{Packets, Replies, SeenPacket, SeenReply};
use crate::sections::{Part, Section, read_section};
use std::alloc::Global;
use std::thread::{Threads, join};
use steer_base::OutOfMemory;

// The most bytes in which the end of a line is looked for.
const LONGEST_LINE: usize = 512;

// Where the line behind a place begins, or that place if no line ends near it.
fn line_behind(bytes: &[u8], at: usize) -> usize
    requires { at ≤ length bytes.now }
    ensures within { result ≤ length bytes.now }
    ensures behind { at ≤ result }
{
    let end = bytes.len().min(at + LONGEST_LINE);
    match bytes[at..end].iter().position(|byte| *byte == b'\n') {
        Some(feed) => at + feed + 1,
        None => at,
    }
}

// Where a section seems to end that begins at a place, if all its lines begin with this byte and
// no line of a further section does. It is found by halves.
fn end_of_section(bytes: &[u8], at: usize, first: u8) -> usize
    requires { at ≤ length bytes.now }
    ensures { result ≤ length bytes.now }
{
    let mut own = at;
    let mut end = bytes.len();
    while own < end {
        let middle = own + (end - own) / 2;
        let line = line_behind(bytes, middle);
        if middle < line && line < end && bytes[line] == first {
            own = line;
        } else {
            end = middle;
        }
    }
    line_behind(bytes, own)
}

// The lines of a section.
fn section_at<T: Drop, S: Section<T>>(
    alloc: Global,
    bytes: &[u8],
    at: usize,
    most: usize,
    of: &S,
) -> Result<Part<T>, OutOfMemory>
    requires { at ≤ length bytes.now }
    ensures { IfOk result (λ part.
        IsRead S.first S.least S.shows bytes.now at most part.items.items part.next) }
{
    let part = read_section(alloc, bytes, at, most, of)?;
    Ok(part)
}

// The lines of a section, at most so many, from a place on, and beside them, on threads, those of
// the next section from where it seems to begin. If it begins elsewhere, its lines are read again.
fn read_two<T: Drop + Send, U: Drop, S: Section<T> + Sync, N: Section<U>, R: Threads>(
    rt: &R,
    alloc: Global,
    bytes: &[u8],
    at: usize,
    seems: usize,
    most: usize,
    of: &S,
    next: &N,
) -> Result<(Part<T>, Part<U>), OutOfMemory>
    requires at { at ≤ length bytes.now }
    requires seems { seems ≤ length bytes.now }
    ensures first { IfOk result (λ two.
        IsRead S.first S.least S.shows bytes.now at most two.0.items.items two.0.next) }
    ensures second { IfOk result (λ two.
        IsRead N.first N.least N.shows bytes.now two.0.next most two.1.items.items two.1.next) }
{
    let (first, second) = join(
        rt,
        || -> Result<Part<T>, OutOfMemory>
            requires { IsSync S.row × (at ≤ length bytes.now) }
            ensures { IfOk result (λ part. IsRead S.first S.least S.shows bytes.entry.now at most
                part.items.items part.next) }
        { section_at(alloc, bytes, at, most, of) },
        || -> Result<Part<U>, OutOfMemory>
            requires { seems ≤ length bytes.now }
            ensures { IfOk result (λ part. IsRead N.first N.least N.shows bytes.entry.now seems most
                part.items.items part.next) }
        { section_at(alloc, bytes, seems, most, next) },
    );
    let first = first?;
    let second = second?;
    if first.next == seems {
        return Ok((first, second));
    }
    let second = section_at(alloc, bytes, first.next, most, next)?;
    Ok((first, second))
}

/// How the two longest sections of a report are read.
pub trait ReadsSections {
    /// The lines of packets from a place on, at most so many, and those of the replies behind them.
    fn packets_and_replies(
        &self,
        alloc: Global,
        bytes: &[u8],
        at: usize,
        most: usize,
    ) -> Result<(Part<SeenPacket>, Part<SeenReply>), OutOfMemory>
        requires { at ≤ length bytes.now }
        ensures packets { IfOk result (λ two. IsRead (codes "p") SHORTEST_PACKET ShowsPacket
            bytes.now at most two.0.items.items two.0.next) }
        ensures replies { IfOk result (λ two. IsRead (codes "r") SHORTEST_REPLY ShowsReply
            bytes.now two.0.next most two.1.items.items two.1.next) };
}

/// One piece of work after the other, on the thread of the caller.
#[derive(Clone, Copy, Drop)]
pub struct InTurn;

/// Two pieces of work beside each other, one of them on a thread of its own where one can be made.
#[derive(Clone, Copy, Drop)]
pub struct OnThreads<'a, R>(pub &'a R);

impl ReadsSections for InTurn {
    fn packets_and_replies(
        &self,
        alloc: Global,
        bytes: &[u8],
        at: usize,
        most: usize,
    ) -> Result<(Part<SeenPacket>, Part<SeenReply>), OutOfMemory> {
        let packets = section_at(alloc, bytes, at, most, &Packets)?;
        let replies = section_at(alloc, bytes, packets.next, most, &Replies)?;
        Ok((packets, replies))
    }
}

impl<R: Threads> ReadsSections for OnThreads<'_, R> {
    fn packets_and_replies(
        &self,
        alloc: Global,
        bytes: &[u8],
        at: usize,
        most: usize,
    ) -> Result<(Part<SeenPacket>, Part<SeenReply>), OutOfMemory> {
        let seems = end_of_section(bytes, at, b'p');
        let two = read_two(self.0, alloc, bytes, at, seems, most, &Packets, &Replies)?;
        Ok(two)
    }
}
