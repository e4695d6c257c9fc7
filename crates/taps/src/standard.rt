//! The taps of the program.
ghost use Rattle.std.specs.Prelude.{◌≡◌, List, map, IfOk};
ghost use Rattle.history.specs.declared.packet_line.PacketLine.{PacketLine};
ghost use Rattle.taps.specs.Standard.{standard_texts, text_after};

use crate::depth::Depth;
use crate::per_cpu::PerCpu;
use crate::per_flow::PerFlow;
use crate::tap::{Tap, TapText};
use history::PacketLine;
use std::alloc::Global;
use steer_base::OutOfMemory;

/// A tap of the program, which is one of the three kinds.
#[derive(Drop)]
pub enum StandardTap {
    PerCpu(PerCpu),
    PerFlow(PerFlow),
    Depth(Depth),
}

impl Tap for StandardTap {
    ghost use Rattle.taps.specs.Standard.{text_after};

    ghost text = { text_after };

    fn note(&mut self, line: &PacketLine) -> Result<(), OutOfMemory> {
        match self {
            StandardTap::PerCpu(tap) => tap.note(line),
            StandardTap::PerFlow(tap) => tap.note(line),
            StandardTap::Depth(tap) => tap.note(line),
        }
    }

    fn finish(&mut self) -> Result<TapText, OutOfMemory> {
        match self {
            StandardTap::PerCpu(tap) => tap.finish(),
            StandardTap::PerFlow(tap) => tap.finish(),
            StandardTap::Depth(tap) => tap.finish(),
        }
    }
}

/// The taps of the program, in the order in which a plan's `detach` numbers them from 0: packets
/// per processor, packets per flow, and depth per processor. They have been shown no line yet.
pub fn standard_taps(alloc: Global) -> Result<Vec<StandardTap>, OutOfMemory>
    ensures { IfOk result
        (λ taps. (lines : List PacketLine)
        → map (λ tap. text_after tap lines) taps.items ≡ standard_texts lines) }
{
    let mut taps = Vec::new(alloc);
    taps.push(StandardTap::PerCpu(PerCpu::make(alloc)))?;
    taps.push(StandardTap::PerFlow(PerFlow::make(alloc)))?;
    taps.push(StandardTap::Depth(Depth::make(alloc)))?;
    Ok(taps)
}
