//! A desk in memory that never fails.
ghost use Rattle.std.specs.Prelude.{◌≡◌, ℕ, List, [], Some, unwrap_or};
ghost use Rattle.outside_io.specs.Counts.{last_count};
ghost use Rattle.outside_io.specs.Folder.{bytes_of};

use crate::folder::Folder;
use crate::{Begin, Desk, Got};

/// Files in memory; an unknown name is an empty file. No call fails.
#[derive(Drop)]
pub struct SureDesk {
    folder: Folder,
}

impl SureDesk {
    ghost use Rattle.outside_io.specs.SureDesk.{sure_desk_held, sure_desk_left};

    /// A desk with these files, each a name and its bytes. If a name occurs more than once, its
    /// first file counts.
    pub fn make(files: Vec<(String, Vec<u8>)>) -> Self
        ensures held { (name : List ℕ) →
            sure_desk_held result name ≡ Some (unwrap_or (bytes_of files.items name) []) }
        ensures left { sure_desk_left result ≡ [] }
    {
        SureDesk {
            folder: Folder::make(files),
        }
    }
}

impl Desk for SureDesk {
    ghost use Rattle.outside_io.specs.SureDesk.{sure_desk_held, sure_desk_left};

    ghost held = { sure_desk_held };

    ghost left = { λ desk. Some (sure_desk_left desk) };

    ghost taken = { λ _. last_count };

    ghost reads = { λ _. last_count };

    ghost faults = { λ _. 0 };

    fn begin(&mut self, name: &str) -> Begin {
        self.folder.begin(name);
        Begin::Ok
    }

    fn read(&mut self, buf: &mut [u8]) -> Got {
        match self.folder.read(buf) {
            0 => Got::End,
            count => Got::Bytes(count),
        }
    }
}
