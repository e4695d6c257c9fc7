//! The flows of frames, with how many levels were entered to reach them.
ghost use Rattle.std.specs.Prelude.{◌≡◌, ◌<◌, ◌^◌, [], ◌∷◌, ◌++◌, length, get_or, OnOk};
ghost use Rattle.steer_top.specs.PlacedLists.{not_placed};

use crate::flow_list::FlowList;
use std::alloc::Global;
use std::marker::Model;
use steer_base::OutOfMemory;
use tunnel_dissector::Inner;

/// A list of flows, each with the number of levels, which takes one byte more.
#[derive(Drop)]
pub struct PlacedList {
    flows: FlowList,
    depths: Vec<u8>,
}

impl Model for PlacedList {
    ghost use Rattle.std.specs.Prelude.{◌≡◌, List, length};
    ghost use Rattle.tunnel_dissector.specs.declared.inner.Inner.{Inner};
    ghost use Rattle.steer_top.specs.PlacedLists.{placed_of};

    ghost Value = { List Inner };

    ghost view = { λ list. placed_of list.flows list.depths.items };

    ghost invariant = { λ list. length list.depths.items ≡ length list.flows };
}

impl PlacedList {
    /// No flows. Allocates nothing.
    pub fn new(alloc: Global) -> PlacedList
        ensures { result ≡ [] }
    {
        PlacedList {
            flows: FlowList::new(alloc),
            depths: Vec::new(alloc),
        }
    }

    /// Appends a flow and its number of levels.
    pub fn push(&mut self, placed: Inner) -> Result<(), OutOfMemory>
        requires few { length self.old < 2 ^ 32 }
        ensures { OnOk result (self.new ≡ self.old ++ placed ∷ []) }
    {
        self.depths.reserve(1)?;
        self.flows.push(placed.flow)?;
        self.depths.push_reserved(placed.depth);
        Ok(())
    }

    /// The number of flows.
    pub fn len(&self) -> usize
        ensures { result ≡ length self.now }
    {
        self.depths.len()
    }

    /// The flow at an index, and its number of levels.
    pub fn get(&self, index: usize) -> Inner
        requires { index < length self.now }
        ensures { result ≡ get_or self.now index not_placed }
    {
        Inner {
            flow: self.flows.get(index),
            depth: self.depths[index],
        }
    }
}
