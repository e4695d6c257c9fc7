//! A desk: a source of named files, of which one at a time is read from the beginning.
ghost use Rattle.std.specs.Prelude.{◌≡◌, ◌<◌, ◌≤◌, List, ℕ, Option, IfSome, None, length};
ghost use Rattle.outside_io.specs.Counts.{Rose, raised};
ghost use Rattle.outside_io.specs.Desk.{Begins, GoesOnTelling, Reads, read_count};

/// The result of beginning a file.
#[derive(Clone, Copy, Debug, PartialEq, Eq)]
pub enum Begin {
    /// The file was begun, at its first byte.
    Ok,
    /// It could not be begun, and a fault was counted.
    Failed,
}

/// The result of a read.
#[derive(Clone, Copy, Debug, PartialEq, Eq)]
pub enum Got {
    /// This many bytes, at least one, are at the front of the buffer.
    Bytes(usize),
    /// No byte is left.
    End,
    /// Nothing was read, and a fault was counted.
    Failed,
}

/// A source of named files. Ghost state that an implementation cannot observe is `None`. If it does
/// not count bytes or reads, that count is the constant `last_count`, and the clauses about it say
/// nothing about this desk.
pub trait Desk {
    /// The bytes of each named file, if the desk can observe them.
    ghost held: { Self → List ℕ → Option (List ℕ) };

    /// The bytes left of the file that was begun, if the desk can observe them.
    ghost left: { Self → Option (List ℕ) };

    /// The name of the file that was begun last, if the desk can observe it.
    ghost asked: { Self → Option (List ℕ) } = { λ _. None };

    /// The number of bytes read.
    ghost taken: { Self → ℕ };

    /// The number of reads made.
    ghost reads: { Self → ℕ };

    /// The number of failed calls.
    ghost faults: { Self → ℕ };

    /// Begins the named file at its first byte, in place of the one begun before.
    fn begin(&mut self, name: &str) -> Begin
        ensures held { held self.new ≡ held self.old }
        ensures left { Begins result (held self.old name.now) (left self.new) }
        ensures told { GoesOnTelling (left self.old) (left self.new) }
        ensures asked { IfSome (asked self.new) (λ asked. asked ≡ name.now) }

        ensures taken { taken self.new ≡ taken self.old }
        ensures reads { reads self.new ≡ reads self.old }

        ensures later { faults self.old ≤ faults self.new }
        ensures failed { result ≡ Begin.Failed → Rose (faults self.old) (faults self.new) };

    /// Reads the next bytes of the file that was begun, at least one if any is left.
    fn read(&mut self, buf: &mut [u8]) -> Got
        requires { 0 < length buf.old }
        ensures held { held self.new ≡ held self.old }
        ensures left { Reads result buf.new (left self.old) (left self.new) }
        ensures asked { asked self.new ≡ asked self.old }

        ensures taken { taken self.new ≡ raised (read_count result) (taken self.old) }
        ensures reads { reads self.new ≡ raised 1 (reads self.old) }

        ensures later { faults self.old ≤ faults self.new }
        ensures failed { result ≡ Got.Failed → Rose (faults self.old) (faults self.new) };
}
