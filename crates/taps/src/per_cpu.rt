//! A tap that counts the packets of each processor.
ghost use Rattle.std.specs.Prelude.{◌≡◌, ◌==◌, ◌+◌, ◌++◌, ℕ, List, slice_index, IfOk, OnOk, OnErr};
ghost use Rattle.std.specs.Prelude.{if◌then◌else◌};
ghost use Rattle.history.specs.declared.packet_line.PacketLine.{PacketLine};
ghost use Rattle.taps.specs.Cpus.{per_cpu_text, cpu_count_line};
ghost use Rattle.taps.specs.Rows.{each_cpu};

use crate::tap::{Tap, TapText};
use crate::text::push_row;
use history::PacketLine;
use std::alloc::Global;
use steer_base::OutOfMemory;

/// Counts the packets steered to each processor. Its text is one line `cpu C packets N` for each
/// processor with at least one, in ascending order.
#[derive(Drop)]
pub struct PerCpu {
    alloc: Global,
    counts: [u64; 256],
}

impl PerCpu {
    ghost use Rattle.taps.specs.PerCpu.{per_cpu_after};

    /// A tap that has been shown no line yet.
    pub fn make(alloc: Global) -> PerCpu
        ensures { (lines : List PacketLine) → per_cpu_after result lines ≡ per_cpu_text lines }
    {
        PerCpu {
            alloc,
            counts: [0; 256],
        }
    }
}

impl Tap for PerCpu {
    ghost use Rattle.taps.specs.PerCpu.{per_cpu_after};

    ghost text = { per_cpu_after };

    fn note(&mut self, line: &PacketLine) -> Result<(), OutOfMemory> {
        if let Some(choice) = line.choice {
            count_at(&mut self.counts, choice.lane)?;
        }
        Ok(())
    }

    fn finish(&mut self) -> Result<TapText, OutOfMemory> {
        let bytes = rows(self.alloc, &self.counts)?;
        Ok(TapText { bytes })
    }
}

// Increments a lane's packet count. If the count would overflow, returns `OutOfMemory`, the only
// error that a tap can return.
fn count_at(counts: &mut [u64; 256], lane: u8) -> Result<(), OutOfMemory>
    ensures counted { OnOk result
        ((cpu : ℕ)
        → slice_index counts.new cpu
        ≡ slice_index counts.old cpu + (if lane == cpu then 1 else 0)) }
    ensures kept { OnErr result (counts.new ≡ counts.old) }
{
    let count = &mut counts[usize::from(lane)];
    *count = count.checked_add(1).ok_or(OutOfMemory)?;
    Ok(())
}

// The lines of all processors that have packets.
fn rows(alloc: Global, counts: &[u64; 256]) -> Result<Vec<u8>, OutOfMemory>
    ensures { IfOk result
        (λ text. text.items ≡ each_cpu (λ cpu. cpu_count_line cpu (slice_index counts.now cpu))) }
{
    let mut text = Vec::new(alloc);
    for cpu in 0..256u32 {
        push_cpu(&mut text, cpu, counts[cpu as usize])?;
    }
    Ok(text)
}

fn push_cpu(text: &mut Vec<u8>, cpu: u32, count: u64) -> Result<(), OutOfMemory>
    ensures { OnOk result (text.new.items ≡ text.old.items ++ cpu_count_line cpu count) }
{
    if count == 0 {
        return Ok(());
    }
    push_row(text, b"cpu ", cpu, b" packets ", count)
}
