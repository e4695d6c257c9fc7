//! A desk in memory that fails at listed calls.
ghost use Rattle.std.specs.Prelude.{if◌then◌else◌, ◌≡◌, ◌<◌, ◌≤◌, ℕ, [], Some, List, length};
ghost use Rattle.std.specs.Prelude.{IfSome};
ghost use Rattle.outside_io.specs.Counts.{Rose, raised};
ghost use Rattle.outside_io.specs.Desk.{Begins, GoesOnTelling, Reads, read_count, read_failed};
ghost use Rattle.outside_io.specs.Failures.{Counts, IsFresh};
ghost use Rattle.outside_io.specs.Folder.{bytes_of};

use crate::failures::Failures;
use crate::folder::Folder;
use crate::{Begin, Desk, Got};

/// Files in memory. Calls of `begin` and `read` are numbered together from 1: the listed ones fail,
/// and so does a `begin` of an unknown name. Before the first `begin`, and after one that failed,
/// no file is begun. It counts its reads, including failed ones, and the bytes that they returned.
#[derive(Drop)]
pub struct MemoryDesk {
    folder: Folder,
    failures: Failures,
    reads: u64,
    taken: u64,
}

impl MemoryDesk {
    ghost use Rattle.outside_io.specs.MemoryDesk.{memory_desk_failures, memory_desk_held};
    ghost use Rattle.outside_io.specs.MemoryDesk.{memory_desk_left, reads_of};
    ghost use Rattle.outside_io.specs.MemoryDesk.{taken_of};

    /// A desk with these files, each a name and its bytes. If a name occurs more than once, its
    /// first file counts.
    pub fn make(files: Vec<(String, Vec<u8>)>, failing: Vec<u64>) -> Self
        ensures held { memory_desk_held result ≡ bytes_of files.items }
        ensures left { memory_desk_left result ≡ [] }
        ensures fresh { IsFresh (memory_desk_failures result) failing.items }
        ensures reads { reads_of result ≡ 0 }
        ensures taken { taken_of result ≡ 0 }
    {
        MemoryDesk {
            folder: Folder::make(files),
            failures: Failures::make(failing),
            reads: 0,
            taken: 0,
        }
    }

    /// The number of reads made, up to `u64::MAX`.
    pub fn reads(&self) -> u64
        ensures { result ≡ reads_of self.now }
    {
        self.reads
    }

    /// The number of bytes that the reads returned, up to `u64::MAX`.
    pub fn taken(&self) -> u64
        ensures { result ≡ taken_of self.now }
    {
        self.taken
    }
}

impl Desk for MemoryDesk {
    ghost use Rattle.outside_io.specs.MemoryDesk.{begin_fails, read_fails};
    ghost use Rattle.outside_io.specs.MemoryDesk.{asked_on, memory_desk_failures};
    ghost use Rattle.outside_io.specs.MemoryDesk.{memory_desk_faults, memory_desk_held};
    ghost use Rattle.outside_io.specs.MemoryDesk.{memory_desk_left};
    ghost use Rattle.outside_io.specs.MemoryDesk.{reads_of, taken_of};

    ghost held = { memory_desk_held };

    ghost left = { λ desk. Some (memory_desk_left desk) };

    ghost asked = { λ desk. asked_on desk };

    ghost taken = { λ desk. taken_of desk };

    ghost reads = { λ desk. reads_of desk };

    ghost faults = { λ desk. memory_desk_faults desk };

    fn begin(&mut self, name: &str) -> Begin
        ensures held { memory_desk_held self.new ≡ memory_desk_held self.old }
        ensures left { Begins result (memory_desk_held self.old name.now)
            (Some (memory_desk_left self.new)) }
        ensures told { GoesOnTelling (Some (memory_desk_left self.old))
            (Some (memory_desk_left self.new)) }
        ensures asked { IfSome (asked_on self.new) (λ asked. asked ≡ name.now) }
        ensures taken { taken_of self.new ≡ taken_of self.old }
        ensures reads { reads_of self.new ≡ reads_of self.old }
        ensures later { memory_desk_faults self.old ≤ memory_desk_faults self.new }
        ensures failed { result ≡ Begin.Failed → Rose (memory_desk_faults self.old)
            (memory_desk_faults self.new) }

        ensures exact { result ≡
            (if begin_fails self.old name.now then Begin.Failed else Begin.Ok) }
        ensures counted { Counts (memory_desk_failures self.old) (memory_desk_failures self.new)
            (begin_fails self.old name.now) }
        ensures stopped { result ≡ Begin.Failed → memory_desk_left self.new ≡ [] }
    {
        if self.failures.next_call() || !self.folder.begin(name) {
            self.folder.stop();
            self.failures.count_fault();
            return Begin::Failed;
        }
        Begin::Ok
    }

    fn read(&mut self, buf: &mut [u8]) -> Got
        requires { 0 < length buf.old }
        ensures held { memory_desk_held self.new ≡ memory_desk_held self.old }
        ensures left { Reads result buf.new (Some (memory_desk_left self.old))
            (Some (memory_desk_left self.new)) }
        ensures asked { asked_on self.new ≡ asked_on self.old }
        ensures taken { taken_of self.new ≡ raised (read_count result) (taken_of self.old) }
        ensures reads { reads_of self.new ≡ raised 1 (reads_of self.old) }
        ensures later { memory_desk_faults self.old ≤ memory_desk_faults self.new }
        ensures failed { result ≡ Got.Failed → Rose (memory_desk_faults self.old)
            (memory_desk_faults self.new) }

        ensures exact { read_failed result ≡ read_fails self.old }
        ensures counted { Counts (memory_desk_failures self.old) (memory_desk_failures self.new)
            (read_fails self.old) }
    {
        self.reads = self.reads.saturating_add(1);
        if self.failures.next_call() {
            self.failures.count_fault();
            return Got::Failed;
        }
        match self.folder.read(buf) {
            0 => Got::End,
            count => {
                self.taken = self.taken.saturating_add(count as u64);
                Got::Bytes(count)
            }
        }
    }
}
