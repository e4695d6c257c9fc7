//! The bytes of a file that were read and are still needed.
ghost use Rattle.std.specs.Prelude.{◌≡◌, ◌≤◌, ◌<◌, ◌+◌, ◌⊎◌, ◌++◌, [], length, drop, OnOk, IfErr};
ghost use Rattle.std.specs.Prelude.{IsErrOf};
ghost use Rattle.outside_io.specs.Counts.{Rose};
ghost use Rattle.outside_io.specs.declared.reading.TheConstants.{MAX_FILE};
ghost use Rattle.outside_io.specs.Desk.{GoesOnTelling};

use crate::fault::StreamFault;
use outside_io::{Desk, Got};
use std::alloc::Global;
use std::mem;

/// The bytes of a file that were read and not yet passed. It takes the memory of two pieces and of
/// the longest record that it was to hold, whatever the length of the file.
#[derive(Drop)]
pub struct Window {
    // The bytes from `start` on are the window.
    buffer: Vec<u8>,
    start: usize,
    spare: Vec<u8>,
    // How many bytes of the file were read, and how many it may have.
    taken: usize,
    limit: usize,
    ghost begun: { start ≤ length buffer.items },
    ghost read: { length buffer.items ≤ start + taken },
    ghost few: { taken ≤ limit },
    ghost small: { limit ≤ MAX_FILE },
}

impl Window {
    ghost use Rattle.capture_stream.specs.Windows.{Grows, content};

    /// An empty window on a file of which nothing was read, and which may have so many bytes.
    pub fn new(alloc: Global, limit: usize) -> Window
        requires { limit ≤ MAX_FILE }
        ensures empty { content result ≡ [] }
        ensures taken { result.taken ≡ 0 }
        ensures limit { result.limit ≡ limit }
    {
        Window {
            buffer: Vec::new(alloc),
            start: 0,
            spare: Vec::new(alloc),
            taken: 0,
            limit,
        }
    }

    /// The bytes that were read and not yet passed.
    pub fn bytes(&self) -> &[u8]
        ensures { result.now ≡ content self.now }
    {
        &self.buffer[self.start..]
    }

    /// Passes the first bytes of the window, which are not needed any more.
    pub fn pass(&mut self, count: usize)
        requires { count ≤ length (content self.old) }
        ensures content { content self.new ≡ drop count (content self.old) }
        ensures taken { self.new.taken ≡ self.old.taken }
        ensures limit { self.new.limit ≡ self.old.limit }
    {
        self.start += count;
    }

    /// Reads one more piece of the file, at most as long as `piece`, by way of which it comes.
    /// `false` says that the file has ended.
    pub fn more<D: Desk>(&mut self, desk: &mut D, piece: &mut [u8]) -> Result<bool, StreamFault>
        requires { 0 < length piece.old }
        ensures grows { Grows result self.old self.new (D.left desk.old) (D.left desk.new) }
        ensures piece { length piece.new ≡ length piece.old }
        ensures fault { IsErrOf result StreamFault.Unread
            → Rose (D.faults desk.old) (D.faults desk.new) }
        ensures later { D.faults desk.old ≤ D.faults desk.new }
        ensures held { D.held desk.new ≡ D.held desk.old }
        ensures told { GoesOnTelling (D.left desk.old) (D.left desk.new) }
        ensures asked { D.asked desk.new ≡ D.asked desk.old }
    {
        let room = (self.limit + 1 - self.taken).min(piece.len());
        match desk.read(&mut piece[..room]) {
            Got::Bytes(count) => {
                self.append(&piece[..count])?;
                Ok(true)
            }
            Got::End => Ok(false),
            Got::Failed => Err(StreamFault::Unread),
        }
    }

    // Appends what was read, and gives up the bytes that were passed.
    fn append(&mut self, piece: &[u8]) -> Result<(), StreamFault>
        requires { length piece.now ≤ MAX_FILE + 1 }
        ensures content { OnOk result (content self.new ≡ content self.old ++ piece.now) }
        ensures taken { OnOk result (self.new.taken ≡ self.old.taken + length piece.now) }
        ensures within { OnOk result (self.new.taken ≤ self.new.limit) }
        ensures limit { OnOk result (self.new.limit ≡ self.old.limit) }
        ensures stops { IfErr result (λ e. ((e ≡ StreamFault.TooLong)
            × (self.old.limit < self.old.taken + length piece.now))
            ⊎ (e ≡ StreamFault.OutOfMemory)) }
    {
        if self.taken + piece.len() > self.limit {
            return Err(StreamFault::TooLong);
        }
        if self.start > 0 {
            self.spare.clear();
            self.spare.extend_from_slice(&self.buffer[self.start..])?;
            mem::swap(&mut self.buffer, &mut self.spare);
            self.start = 0;
        }
        self.buffer.extend_from_slice(piece)?;
        self.taken += piece.len();
        Ok(())
    }
}
