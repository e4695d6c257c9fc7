//! The current lane of each class of a producer.
use indexmap::IndexMap;
use std::alloc::Global;
use steer_base::{Chosen, OutOfMemory};

/// For each class the lane of its last choice.
#[derive(Drop)]
pub struct CurrentLanes {
    lanes: IndexMap<u32, u8>,
}

impl CurrentLanes {
    ghost use Rattle.std.specs.Prelude.{ℕ, ◌≡◌, ◌++◌, ◌∷◌, [], List, OnOk, Some};
    ghost use Rattle.steer_base.specs.declared.choice.Chosen.{Chosen as AChosen};
    ghost use Rattle.rule_check.specs.Currents.{AreCurrent, lane_in};

    /// The lanes before the first choice. Allocates nothing.
    pub fn new(alloc: Global) -> CurrentLanes
        ensures { AreCurrent result [] }
    {
        CurrentLanes {
            lanes: IndexMap::new(alloc),
        }
    }

    /// The current lane of a class, if it has one.
    pub fn of(&self, class: u32) -> Option<u8>
        ensures { result ≡ lane_in self.now class }
    {
        self.lanes.get(&class).copied()
    }

    /// Notes a choice.
    pub fn note(&mut self, chosen: &Chosen) -> Result<(), OutOfMemory>
        ensures { OnOk result ((cs : List AChosen) → AreCurrent self.old cs
            → AreCurrent self.new (cs ++ chosen.now ∷ [])) }
    {
        let Some(class) = chosen.choice.class else {
            return Ok(());
        };
        match self.lanes.insert(class, chosen.choice.lane) {
            Ok(_) => Ok(()),
            Err(_) => Err(OutOfMemory),
        }
    }
}
