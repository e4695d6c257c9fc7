//! A desk over the files of the operating system.
ghost use Rattle.std.specs.Prelude.{◌≡◌, ◌<◌, ◌≤◌, IfSome, None, IsSome, Some, length};
ghost use Rattle.std.specs.Prelude.{option_and_then};
ghost use Rattle.outside_io.specs.Counts.{Rose, counted, last_count, raised};
ghost use Rattle.outside_io.specs.Desk.{Begins, GoesOnTelling, Reads, read_count};
ghost use Rattle.outside_io.specs.Desk.{has_failed, read_failed, untold};
ghost use Rattle.outside_io.specs.FileDesk.{file_desk_asked, file_desk_faults, file_of};

use crate::ghost_bytes::GhostBytes;
use crate::retrying::read_retrying;
use crate::{Begin, Desk, Got};
use std::fs;
use std::rt::Files;

/// The files of the operating system, by path. It observes the name that was asked for last. Its
/// contracts say nothing about the bytes of a file, and it counts neither bytes nor reads. A name
/// that cannot be opened fails at `begin`; a folder or a bad disk fails at `read`.
#[derive(Drop)]
pub struct FileDesk<R: Files + Drop> {
    rt: R,
    file: Option<R::File>,
    asked: Option<GhostBytes>,
    faults: u64,
}

impl<R: Files + Drop> FileDesk<R> {
    /// A desk on which no file is begun and no call has failed.
    pub fn make(rt: R) -> Self
        ensures begun { file_of result ≡ None }
        ensures asked { file_desk_asked result ≡ None }
        ensures faults { file_desk_faults result ≡ 0 }
    {
        FileDesk {
            rt,
            file: None,
            asked: None,
            faults: 0,
        }
    }
}

impl<R: Files + Drop> Desk for FileDesk<R> {
    ghost held = { λ _. untold };

    ghost left = { λ _. None };

    ghost asked = { λ desk. file_desk_asked desk };

    ghost taken = { λ _. last_count };

    ghost reads = { λ _. last_count };

    ghost faults = { λ desk. file_desk_faults desk };

    fn begin(&mut self, name: &str) -> Begin
        ensures held { untold ≡ untold }
        ensures left { Begins result None None }
        ensures told { GoesOnTelling None None }
        ensures asked { IfSome (file_desk_asked self.new) (λ asked. asked ≡ name.now) }
        ensures taken { last_count ≡ last_count }
        ensures reads { last_count ≡ last_count }
        ensures later { file_desk_faults self.old ≤ file_desk_faults self.new }
        ensures failed { result ≡ Begin.Failed → Rose (file_desk_faults self.old)
            (file_desk_faults self.new) }

        ensures name { file_desk_asked self.new ≡ Some name.now }
        ensures begun { result ≡ Begin.Ok → IsSome (file_of self.new) }
        ensures stopped { result ≡ Begin.Failed → file_of self.new ≡ None }
        ensures counted { file_desk_faults self.new ≡ counted (has_failed result)
            (file_desk_faults self.old) }
    {
        self.file = None;
        self.asked = Some(GhostBytes::of(name.as_bytes()));
        let Ok(file) = fs::open(&self.rt, name) else {
            self.faults = self.faults.saturating_add(1);
            return Begin::Failed;
        };
        self.file = Some(file);
        Begin::Ok
    }

    fn read(&mut self, buf: &mut [u8]) -> Got
        requires { 0 < length buf.old }
        ensures held { untold ≡ untold }
        ensures left { Reads result buf.new None None }
        ensures asked { file_desk_asked self.new ≡ file_desk_asked self.old }
        ensures taken { last_count ≡ raised (read_count result) last_count }
        ensures reads { last_count ≡ raised 1 last_count }
        ensures later { file_desk_faults self.old ≤ file_desk_faults self.new }
        ensures failed { result ≡ Got.Failed → Rose (file_desk_faults self.old)
            (file_desk_faults self.new) }

        ensures nothing_begun { file_of self.old ≡ None → result ≡ Got.End }
        ensures passed { Reads result buf.new (option_and_then R.File.remaining (file_of self.old))
            (option_and_then R.File.remaining (file_of self.new)) }
        ensures counted { file_desk_faults self.new ≡ counted (read_failed result)
            (file_desk_faults self.old) }
    {
        let Some(file) = &mut self.file else {
            return Got::End;
        };
        match read_retrying(file, buf) {
            Ok(0) => Got::End,
            Ok(count) => Got::Bytes(count),
            Err(_) => {
                self.faults = self.faults.saturating_add(1);
                Got::Failed
            }
        }
    }
}
