//! The records of a capture, in the order of the file.
ghost use Rattle.std.specs.Prelude.{◌≡◌, [], ◌∷◌, ◌++◌, List, length, OnOk, OnErr, IsTrue, ◌↔◌};

use crate::record::PcapRecord;
use std::alloc::Global;
use std::marker::Model;
use steer_base::OutOfMemory;

/// A list of records.
#[derive(Drop)]
pub struct Records {
    items: Vec<PcapRecord>,
}

impl Model for Records {
    ghost use Rattle.std.specs.Prelude.{List};
    ghost use Rattle.pcap_reader.specs.declared.record.PcapRecord.{PcapRecord};

    ghost Value = { List PcapRecord };

    ghost view = { λ r. r.items.items };
}

impl Records {
    /// An empty list. Allocates nothing.
    pub fn new(alloc: Global) -> Self
        ensures { result ≡ [] }
    {
        Records {
            items: Vec::new(alloc),
        }
    }

    /// The number of records.
    pub fn len(&self) -> usize
        ensures { result ≡ length self.now }
    {
        self.items.len()
    }

    /// Whether there are no records.
    pub fn is_empty(&self) -> bool
        ensures { IsTrue result ↔ (self.now ≡ []) }
    {
        self.items.is_empty()
    }

    /// The records as a slice.
    pub fn as_slice(&self) -> &[PcapRecord]
        ensures { result.now ≡ self.now }
    {
        self.items.as_slice()
    }

    /// Appends a record. On an error the list is unchanged.
    pub fn push(&mut self, next: PcapRecord) -> Result<(), OutOfMemory>
        ensures ok { OnOk result (self.new ≡ self.old ++ next ∷ []) }
        ensures err { OnErr result (self.new ≡ self.old) }
    {
        self.items.push(next)?;
        Ok(())
    }
}
