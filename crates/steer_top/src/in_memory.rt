//! The top call over files and sinks in memory.
ghost use Rattle.std.specs.Prelude.{IfOk, map};
ghost use Rattle.outside_io.specs.Folder.{bytes_of};
ghost use Rattle.steer_top.specs.InMemory.{IsCalled};
ghost use Rattle.steer_top.specs.Words.{command_of};

use crate::top::steer;
use outside_io::{MemoryDesk, MemorySink};
use run_words::Pace;
use std::alloc::Global;
use std::sync::Wait;
use std::thread::Threads;
use steer_base::OutOfMemory;
use taps::Tap;

/// What a call over files in memory came to.
#[derive(Drop)]
pub struct InMemory {
    /// The exit status.
    pub status: u8,
    /// The files.
    pub desk: MemoryDesk,
    /// What took the text.
    pub out: MemorySink,
    /// What took the line.
    pub err: MemorySink,
}

/// Carries out the command that `words` are, as `steer` does, over these files, each a name and its
/// bytes; if a name occurs more than once, its first file counts. There is room for so many bytes
/// of text, and for as many of the line. `Err` is only out of memory, before the call.
pub fn steer_in_memory<R: Threads + Wait + Sync, P: Pace + Sync>(
    rt: &R,
    alloc: Global,
    words: &[String],
    files: Vec<(String, Vec<u8>)>,
    room: usize,
    taps: Vec<Box<dyn Tap>>,
    pace: &P,
) -> Result<InMemory, OutOfMemory>
    ensures { IfOk result (IsCalled (command_of words.now) (bytes_of files.items)
        (map text taps.items)) }
{
    let mut desk = MemoryDesk::make(files, Vec::new(alloc));
    let mut out = MemorySink::make(alloc, room, Vec::new(alloc))?;
    let mut err = MemorySink::make(alloc, room, Vec::new(alloc))?;
    let status = steer(rt, alloc, words, &mut desk, &mut out, &mut err, taps, pace);
    Ok(InMemory {
        status,
        desk,
        out,
        err,
    })
}
