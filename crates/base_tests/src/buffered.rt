//! Bytes that are gathered before they are written, and what a fault leaves of them.
use crate::equal::{same, same_items};
use outside_io::{BufferedSink, Sink, StdSink, WriteFault, write_whole};
use std::alloc::Global;
use std::io;
use std::io::{ErrorKind, Write};
use std::test::Fail;

// What a writer was called with: the bytes that it took, with a bar behind each call.
#[derive(Drop)]
struct Calls {
    taken: Vec<u8>,
    made: u32,
}

// A writer that takes at most `most` bytes in a call. Its calls of `write` and `flush` are numbered
// together from 1, and this one fails.
#[derive(Drop)]
struct Listed<'a> {
    calls: &'a mut Calls,
    most: usize,
    failing: u32,
}

impl Listed<'_> {
    fn next_call(&mut self) -> io::Result<()> {
        self.calls.made = self.calls.made.saturating_add(1);
        if self.calls.made == self.failing {
            return Err(io::Error::from(ErrorKind::StorageFull));
        }
        Ok(())
    }
}

impl Write for Listed<'_> {
    fn write(&mut self, buf: &[u8]) -> io::Result<usize> {
        self.next_call()?;
        let count = buf.len().min(self.most);
        self.calls.taken.extend_from_slice(&buf[..count])?;
        self.calls.taken.push(b'|')?;
        Ok(count)
    }

    fn flush(&mut self) -> io::Result<()> {
        self.next_call()
    }
}

// Writes four pieces through a buffer of four bytes, and flushes it twice. Returns how many of the
// six calls failed.
fn write_pieces(alloc: Global, writer: Listed) -> Result<u32, Fail> {
    let mut out = BufferedSink::make(alloc, 4, StdSink::make(writer))?;
    let mut failed = 0_u32;
    let pieces: [&[u8]; 4] = [b"ab", b"cd", b"e", b"fghij"];
    for piece in pieces {
        if write_whole(&mut out, piece) == Err(WriteFault) {
            failed = failed.saturating_add(1);
        }
    }
    for _ in 0..2 {
        if out.flush() == Err(WriteFault) {
            failed = failed.saturating_add(1);
        }
    }
    Ok(failed)
}

#[test]
fn pieces_are_gathered_and_nothing_follows_a_fault(rt: HostRuntime) -> Result<(), Fail> {
    let alloc = rt.alloc();
    let cases: [(usize, u32, u32, u32, &[u8]); 6] = [
        (9, 0, 0, 6, b"abcd|e|fghi|j|"),
        (3, 0, 0, 8, b"abc|d|e|fgh|i|j|"),
        (9, 1, 4, 1, b""),
        (3, 2, 4, 2, b"abc|"),
        (9, 3, 3, 3, b"abcd|e|"),
        (9, 5, 2, 5, b"abcd|e|fghi|j|"),
    ];
    for (case, (most, failing, failed, made, taken)) in cases.into_iter().enumerate() {
        let mut calls = Calls {
            taken: Vec::new(alloc),
            made: 0,
        };
        let got = write_pieces(
            alloc,
            Listed {
                calls: &mut calls,
                most,
                failing,
            },
        )?;
        same(&rt, &(got, calls.made), &(failed, made), case);
        same_items(&rt, &calls.taken, taken);
    }
    Ok(())
}
