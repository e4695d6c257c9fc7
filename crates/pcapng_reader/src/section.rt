//! A section and its interfaces.
ghost use Rattle.std.specs.Prelude.{◌≡◌, [], ◌∷◌, ◌++◌, List, OnOk, OnErr, slice_get};

use std::alloc::Global;
use std::marker::Model;
use steer_base::OutOfMemory;

/// The content of an interface description block.
#[derive(Clone, Copy, Debug, PartialEq, Eq)]
pub struct Interface {
    /// The link type of its frames; 1 is Ethernet.
    pub link: u16,
    /// The most bytes that were kept of each frame, or 0 if that was not bounded.
    pub snap: u32,
}

/// The interfaces of a section, by their numbers from 0.
#[derive(Drop)]
pub struct Interfaces {
    items: Vec<Interface>,
}

impl Model for Interfaces {
    ghost use Rattle.std.specs.Prelude.{List};
    ghost use Rattle.pcapng_reader.specs.declared.section.Interface.{Interface};

    ghost Value = { List Interface };

    ghost view = { λ i. i.items.items };
}

impl Interfaces {
    /// An empty list. Allocates nothing.
    pub fn new(alloc: Global) -> Self
        ensures { result ≡ [] }
    {
        Interfaces {
            items: Vec::new(alloc),
        }
    }

    /// The interface with this number, if the section has described it.
    pub fn get(&self, id: u32) -> Option<Interface>
        ensures { result ≡ slice_get self.now id }
    {
        self.items.get(id as usize).copied()
    }

    /// Appends an interface. On an error the list is unchanged.
    pub fn push(&mut self, next: Interface) -> Result<(), OutOfMemory>
        ensures ok { OnOk result (self.new ≡ self.old ++ next ∷ []) }
        ensures err { OnErr result (self.new ≡ self.old) }
    {
        self.items.push(next)?;
        Ok(())
    }

    /// Removes all interfaces.
    pub fn clear(&mut self)
        ensures { self.new ≡ [] }
    {
        self.items.clear();
    }
}

/// A section: its byte order, and the interfaces that it has described so far.
#[derive(Drop)]
pub struct Section {
    /// Whether its numbers are big-endian.
    pub big: bool,
    /// The interfaces that packets may name.
    pub interfaces: Interfaces,
}
