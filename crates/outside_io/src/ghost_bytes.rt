//! Bytes that clauses alone read.
ghost use Rattle.std.specs.Prelude.{◌≡◌, [], ◌∷◌, ◌++◌};

use std::marker::Model;
use std::mem;
use std::snapshot::Snapshot;

/// Bytes in order, seen as a list. Clauses alone read them, and they take no memory.
#[derive(Drop)]
pub struct GhostBytes {
    all: Snapshot<Trail>,
}

/// Bytes in order: the last one, after a snapshot of those before it. A run makes one only to take
/// a snapshot of it.
#[derive(Drop)]
pub enum Trail {
    /// No bytes.
    Start,
    /// The bytes so far, and one more.
    Byte(Snapshot<Trail>, u8),
}

impl Model for GhostBytes {
    ghost use Rattle.std.specs.Prelude.{ℕ, List};
    ghost use Rattle.outside_io.specs.Trails.{trail_bytes};

    ghost Value = { List ℕ };

    ghost view = { λ bytes. trail_bytes bytes.all.value };
}

impl GhostBytes {
    /// No bytes.
    pub fn new() -> GhostBytes
        ensures { result ≡ [] }
    {
        GhostBytes {
            all: Snapshot::of(&Trail::Start),
        }
    }

    /// These bytes.
    pub fn of(bytes: &[u8]) -> GhostBytes
        ensures { result ≡ bytes.now }
    {
        let mut all = GhostBytes::new();
        all.append(bytes);
        all
    }

    // Adds a byte.
    fn push(&mut self, byte: u8)
        ensures { self.new ≡ self.old ++ byte ∷ [] }
    {
        let so_far = mem::replace(&mut self.all, Snapshot::of(&Trail::Start));
        self.all = Snapshot::of(&Trail::Byte(so_far, byte));
    }

    /// Adds these bytes.
    pub fn append(&mut self, bytes: &[u8])
        ensures { self.new ≡ self.old ++ bytes.now }
    {
        for &byte in bytes {
            self.push(byte);
        }
    }
}
