//! The lists of a hop, moved out of it.
ghost use Rattle.std.specs.Prelude.{◌≡◌, IfOk, map};
ghost use Rattle.hop_core.specs.Left.{left_lanes};

use crate::HopLists;
use crate::hop::{Hands, Hop, Rings};
use std::alloc::Global;
use steer_base::OutOfMemory;

impl Hop {
    /// What the hop leaves. Its lists are moved and not copied; the memory is for the list of
    /// lanes.
    pub fn into_lists(self, alloc: Global) -> Result<HopLists, OutOfMemory>
        ensures taken { IfOk result (λ lists. lists.taken.items ≡ self.taken) }
        ensures choices { IfOk result (λ lists. map (λ list. list.items) lists.choices.items
            ≡ self.choices) }
        ensures lanes { IfOk result (λ lists. lists.lanes.items ≡ left_lanes self.bare) }
        ensures outs { IfOk result (λ lists. map (λ list. list.items) lists.outs.items
            ≡ self.bare.outs) }
        ensures start { IfOk result (λ lists. lists.start ≡ self.fixed.start) }
    {
        let Hop {
            rings,
            lanes,
            hands,
            outs,
            ..
        } = self;
        let Rings { taken, choices, .. } = rings;
        let Hands { delivered, retired } = hands;
        let start = lanes.start();
        Ok(HopLists {
            taken,
            choices: choices.into_vecs(),
            lanes: lanes.into_left(alloc, delivered, retired)?,
            outs: outs.into_vecs(),
            start,
        })
    }
}
