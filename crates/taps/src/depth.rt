//! A tap that reports the greatest position of each processor's backlog.
ghost use Rattle.std.specs.Prelude.{◌≡◌, ◌==◌, ◌++◌, ℕ, List, slice_index_or, IfOk, OnOk};
ghost use Rattle.std.specs.Prelude.{if◌then◌else◌};
ghost use Rattle.history.specs.declared.packet_line.PacketLine.{PacketLine};
ghost use Rattle.taps.specs.Positions.{deepened as deepened_to, depth_row, depth_text};
ghost use Rattle.taps.specs.Rows.{each_cpu};

use crate::tap::{Tap, TapText};
use crate::text::push_row;
use history::PacketLine;
use std::alloc::Global;
use steer_base::{OutOfMemory, Put, reached};

/// Tracks the positions of the packets that each processor accepted. Its text is one line `depth
/// cpu C at N` for each processor that accepted a packet, in ascending order, where N is the
/// greatest position. Positions are counter numbers that wrap: a later position counts as greater
/// if it has reached the earlier one.
#[derive(Drop)]
pub struct Depth {
    alloc: Global,
    depths: [Option<u32>; 256],
}

impl Depth {
    ghost use Rattle.taps.specs.Depth.{depths_after};

    /// A tap that has been shown no line yet.
    pub fn make(alloc: Global) -> Depth
        ensures { (lines : List PacketLine) → depths_after result lines ≡ depth_text lines }
    {
        Depth {
            alloc,
            depths: [None; 256],
        }
    }
}

impl Tap for Depth {
    ghost use Rattle.taps.specs.Depth.{depths_after};

    ghost text = { depths_after };

    fn note(&mut self, line: &PacketLine) -> Result<(), OutOfMemory> {
        if let (Some(choice), Some(Put::At(position))) = (line.choice, line.put) {
            deepen_at(&mut self.depths, choice.lane, position);
        }
        Ok(())
    }

    fn finish(&mut self) -> Result<TapText, OutOfMemory> {
        let bytes = rows(self.alloc, &self.depths)?;
        Ok(TapText { bytes })
    }
}

// Updates the depth of a lane with one more position.
fn deepen_at(depths: &mut [Option<u32>; 256], lane: u8, position: u32)
    ensures { (cpu : ℕ)
        → slice_index_or depths.new cpu None
        ≡ (if lane == cpu then deepened_to (slice_index_or depths.old cpu None) position
        else slice_index_or depths.old cpu None) }
{
    let depth = &mut depths[usize::from(lane)];
    *depth = deepened(*depth, position);
}

fn deepened(depth: Option<u32>, position: u32) -> Option<u32>
    ensures { result ≡ deepened_to depth position }
{
    match depth {
        Some(depth) if !reached(position, depth, 0) => Some(depth),
        _ => Some(position),
    }
}

// The lines of all processors that have a depth.
fn rows(alloc: Global, depths: &[Option<u32>; 256]) -> Result<Vec<u8>, OutOfMemory>
    ensures { IfOk result
        (λ text. text.items
        ≡ each_cpu (λ cpu. depth_row cpu (slice_index_or depths.now cpu None))) }
{
    let mut text = Vec::new(alloc);
    for cpu in 0..256u32 {
        push_depth(&mut text, cpu, depths[cpu as usize])?;
    }
    Ok(text)
}

fn push_depth(text: &mut Vec<u8>, cpu: u32, depth: Option<u32>) -> Result<(), OutOfMemory>
    ensures { OnOk result (text.new.items ≡ text.old.items ++ depth_row cpu depth) }
{
    match depth {
        None => Ok(()),
        Some(depth) => push_row(text, b"depth cpu ", cpu, b" at ", u64::from(depth)),
    }
}
