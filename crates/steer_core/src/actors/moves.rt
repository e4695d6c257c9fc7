//! The lists of the machine, moved into its history.
ghost use Rattle.std.specs.Prelude.{◌≡◌, IfOk, length};
ghost use Rattle.steer_core.specs.Kept.{kept_history};
ghost use Rattle.steer_model.specs.State.Machine.{history_of};

use crate::actors::Actors;
use crate::kept::{Beside, Kept, history_from};
use history::History;
use std::alloc::Global;
use steer_base::OutOfMemory;

impl Actors {
    /// The machine's history, whose lists are moved out of the machine. The memory is for the lists
    /// of lists.
    pub fn into_history(self, alloc: Global) -> Result<History, OutOfMemory>
        ensures { IfOk result (λ history. history ≡ history_of self.machine) }
    {
        let kept = self.take_apart();
        history_from(alloc, kept)
    }

    // The parts that the history keeps.
    fn take_apart(self) -> Kept
        ensures history { kept_history result ≡ history_of self.machine }
        ensures port { length result.tx.bare.outs ≡ 1 }
    {
        let total = self.given.packet_count();
        let cut = self.given.cut();
        let Actors {
            rx,
            tx,
            arrivals,
            sent,
            writes,
            commands,
            ..
        } = self;
        let beside = Beside {
            arrivals,
            sent,
            writes,
            commands,
        };
        Kept {
            total,
            cut,
            rx,
            tx,
            beside,
        }
    }
}
