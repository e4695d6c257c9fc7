//! Calls that a signal interrupts: they are made again, until they were made too often.
use crate::equal::{same, same_items};
use outside_io::{Begin, BufferedSink, Desk, FileDesk, Got, Sink, StdSink, Took, WriteFault};
use std::alloc::Allocator;
use std::fs::{Files, Metadata, OpenFile, OpenOptions};
use std::io;
use std::io::{Empty, ErrorKind, Read, Seek, SeekFrom, Write};
use std::test::Fail;

// The most times that a call is made.
const TRIES: u32 = 1_000_000;

// A file of one byte. Each of its calls is interrupted this often before it is made.
#[derive(Drop)]
struct Disturbed {
    often: u32,
    interrupted: u32,
    is_read: bool,
}

impl Disturbed {
    fn make(often: u32) -> Disturbed {
        Disturbed {
            often,
            interrupted: 0,
            is_read: false,
        }
    }

    fn next_call(&mut self) -> io::Result<()> {
        if self.interrupted < self.often {
            self.interrupted += 1;
            return Err(io::Error::from(ErrorKind::Interrupted));
        }
        self.interrupted = 0;
        Ok(())
    }
}

impl Read for Disturbed {
    fn read(&mut self, buf: &mut [u8]) -> io::Result<usize> {
        self.next_call()?;
        if self.is_read || buf.is_empty() {
            return Ok(0);
        }
        self.is_read = true;
        buf[0] = 7;
        Ok(1)
    }
}

impl Write for Disturbed {
    fn write(&mut self, buf: &[u8]) -> io::Result<usize> {
        self.next_call()?;
        Ok(buf.len())
    }

    fn flush(&mut self) -> io::Result<()> {
        self.next_call()
    }
}

impl Seek for Disturbed {
    fn seek(&mut self, _to: SeekFrom) -> io::Result<u64> {
        unsupported()
    }
}

impl OpenFile for Disturbed {
    fn metadata(&self) -> io::Result<Metadata> {
        unsupported()
    }

    fn set_len(&self, _size: u64) -> io::Result<()> {
        unsupported()
    }

    fn sync_all(&self) -> io::Result<()> {
        unsupported()
    }

    fn sync_data(&self) -> io::Result<()> {
        unsupported()
    }
}

// Every name is that of such a file.
#[derive(Drop)]
struct DisturbedFiles {
    often: u32,
}

impl Files for DisturbedFiles {
    type File = Disturbed;

    type Dir = Empty;

    fn open_file(&self, _how: &OpenOptions, _path: &str) -> io::Result<Disturbed> {
        Ok(Disturbed::make(self.often))
    }

    fn open_dir(&self, _path: &str) -> io::Result<Empty> {
        unsupported()
    }

    fn metadata(&self, _path: &str) -> io::Result<Metadata> {
        unsupported()
    }

    fn symlink_metadata(&self, _path: &str) -> io::Result<Metadata> {
        unsupported()
    }

    fn copy(&self, _from: &str, _to: &str) -> io::Result<u64> {
        unsupported()
    }

    fn rename(&self, _from: &str, _to: &str) -> io::Result<()> {
        unsupported()
    }

    fn remove_file(&self, _path: &str) -> io::Result<()> {
        unsupported()
    }

    fn create_dir(&self, _path: &str) -> io::Result<()> {
        unsupported()
    }

    fn remove_dir(&self, _path: &str) -> io::Result<()> {
        unsupported()
    }

    fn remove_dir_all<B: Allocator>(&self, _alloc: B, _path: &str) -> io::Result<()> {
        unsupported()
    }
}

fn unsupported<T>() -> io::Result<T> {
    Err(io::Error::from(ErrorKind::Unsupported))
}

const READS: [(u32, Got); 4] = [
    (0, Got::Bytes(1)),
    (1, Got::Bytes(1)),
    (TRIES - 1, Got::Bytes(1)),
    (TRIES, Got::Failed),
];

#[test]
fn an_interrupted_read_is_made_again(rt: HostRuntime) {
    for &(often, want) in &READS {
        let mut desk = FileDesk::make(DisturbedFiles { often });
        same(&rt, &desk.begin("a"), &Begin::Ok, often as usize);
        let mut buffer = [0; 2];
        same(&rt, &desk.read(&mut buffer), &want, often as usize);
    }
    let mut desk = FileDesk::make(DisturbedFiles { often: 1 });
    same(&rt, &desk.begin("a"), &Begin::Ok, 0);
    let mut buffer = [0; 2];
    same(&rt, &desk.read(&mut buffer), &Got::Bytes(1), 1);
    same_items(&rt, &buffer, &[7, 0]);
    same(&rt, &desk.read(&mut buffer), &Got::End, 2);
}

const WRITES: [(u32, Took); 4] = [
    (0, Took::Bytes(4)),
    (1, Took::Bytes(4)),
    (TRIES - 1, Took::Bytes(4)),
    (TRIES, Took::Failed),
];

#[test]
fn an_interrupted_write_is_made_again(rt: HostRuntime) {
    for &(often, want) in &WRITES {
        let mut out = StdSink::make(Disturbed::make(often));
        same(&rt, &out.write(b"p 0\n"), &want, often as usize);
    }
}

const FLUSHES: [(u32, Result<(), WriteFault>); 4] = [
    (0, Ok(())),
    (1, Ok(())),
    (TRIES - 1, Ok(())),
    (TRIES, Err(WriteFault)),
];

#[test]
fn an_interrupted_flush_is_made_again(rt: HostRuntime) {
    for &(often, want) in &FLUSHES {
        let mut out = StdSink::make(Disturbed::make(often));
        same(&rt, &out.flush(), &want, often as usize);
    }
}

const BUFFERED: [(u32, Result<(), WriteFault>); 2] = [(1_000, Ok(())), (TRIES, Err(WriteFault))];

#[test]
fn interruptions_without_end_end_a_buffered_write(rt: HostRuntime) -> Result<(), Fail> {
    for &(often, want) in &BUFFERED {
        let behind = StdSink::make(Disturbed::make(often));
        let mut out = BufferedSink::make(rt.alloc(), 4, behind)?;
        same(&rt, &out.write(b"p 0\n"), &Took::Bytes(4), often as usize);
        same(&rt, &out.flush(), &want, often as usize);
    }
    Ok(())
}
