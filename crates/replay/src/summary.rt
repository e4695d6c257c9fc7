//! The replay of generated input in two lines.
ghost use Rattle.std.specs.Prelude.{◌≡◌, ◌≤◌, ◌+◌, ◌++◌, [], length, IfOk, OnErr, OnOk};
ghost use Rattle.std.specs.Io.KnownBytes.{Appends};
ghost use Rattle.cap_gen.specs.declared.frame.TheConstants.{MAX_FLOWS};
ghost use Rattle.outside_io.specs.Counts.{Rose};
ghost use Rattle.outside_io.specs.Sink.{AppendsSome};
ghost use Rattle.replay.specs.Summaries.{after_drops, counts_line, input_line, up_to_drops};
ghost use Rattle.steer_base.specs.declared.limits.TheConstants.{MAX_PACKETS};

use crate::counts::Counts;
use crate::packets::generated_packets;
use crate::steps::{play, tell_countable};
use cap_gen::{a_generated_capture_has_its_frames, generate_plan};
use outside_io::{Sink, WriteFault};
use plan_reader::read_plan;
use report::LineBuf;
use std::alloc::Global;
use steer_base::OutOfMemory;
use steer_model::flow_count;

/// Totals of a replay of generated input.
#[derive(Clone, Copy, Debug, PartialEq, Eq)]
pub struct Summary {
    /// The seed of the input.
    pub seed: u64,
    /// How many packets its capture has.
    pub packets: u32,
    /// How many flows these packets have.
    pub flows: u64,
    /// How many packets went which way.
    pub counts: Counts,
}

impl Summary {
    ghost use Rattle.replay.specs.Summaries.{IsSummaryOf, summary_text};

    /// Generates a plan and the frames of a capture of `packets` packets over at most `flows`
    /// flows, and makes all steps of the plan over these packets. The capture is not made.
    pub fn make(alloc: Global, seed: u64, packets: u32, flows: u32) -> Result<Summary, OutOfMemory>
        requires few_packets { packets ≤ MAX_PACKETS }
        requires some_flow { 1 ≤ flows }
        requires few_flows { flows ≤ MAX_FLOWS }
        ensures { IfOk result (IsSummaryOf seed packets flows) }
    {
        a_generated_capture_has_its_frames();
        let text = generate_plan(alloc, seed, packets)?;
        // What is generated is a plan, so only memory can run out.
        let Ok(plan) = read_plan(alloc, &text) else {
            return Err(OutOfMemory);
        };
        let list = generated_packets(alloc, &plan, seed, packets, flows)?;
        let history = play(alloc, &plan, &list, None)?;
        tell_countable(&plan, &list, None);
        Ok(Summary {
            seed,
            packets,
            flows: flow_count(&list),
            counts: Counts::of(&history),
        })
    }

    /// Writes the two lines, each as one piece for the sink, through an empty line. It takes no
    /// memory.
    pub fn write<K: Sink>(&self, line: &mut LineBuf, out: &mut K) -> Result<(), WriteFault>
        requires empty { line.old ≡ [] }
        ensures whole { OnOk result
            (Appends (K.written out.old) (K.written out.new) (summary_text self.now)) }
        ensures part { OnErr result
            (AppendsSome (K.written out.old) (K.written out.new) (summary_text self.now)) }
        ensures fault { OnErr result (Rose (K.faults out.old) (K.faults out.new)) }
        ensures later { K.faults out.old ≤ K.faults out.new }
    {
        push_input(line, self.seed, self.packets, self.flows);
        line.write(out)?;
        push_counts(line, self.counts);
        line.write(out)
    }
}

// Puts the line of the input in an empty line.
#[tactic(auto, unfolding(crate::specs::Summaries::input_line))]
fn push_input(line: &mut LineBuf, seed: u64, packets: u32, flows: u64)
    requires { line.old ≡ [] }
    ensures { line.new ≡ input_line seed packets flows }
{
    line.push(b"gen ");
    line.push_decimal(seed);
    line.push(b" packets ");
    line.push_decimal(u64::from(packets));
    line.push(b" flows ");
    line.push_decimal(flows);
    line.push(b"\n");
}

// Puts the line of the counts in an empty line.
#[tactic(auto, unfolding(crate::specs::Summaries::counts_line))]
fn push_counts(line: &mut LineBuf, counts: Counts)
    requires { line.old ≡ [] }
    ensures { line.new ≡ counts_line counts }
{
    push_packets(line, counts.delivered, counts.dropped);
    push_moves(line, counts.moved, counts.replies);
}

#[tactic(auto, unfolding(crate::specs::Summaries::up_to_drops))]
fn push_packets(line: &mut LineBuf, delivered: u64, dropped: u64)
    requires { line.old ≡ [] }
    ensures value { line.new ≡ up_to_drops delivered dropped }
    ensures few { length line.new ≤ 100 }
{
    line.push(b"delivered ");
    line.push_decimal(delivered);
    line.push(b" dropped ");
    line.push_decimal(dropped);
}

#[tactic(auto, unfolding(crate::specs::Summaries::after_drops))]
fn push_moves(line: &mut LineBuf, moved: u64, replies: u64)
    requires { length line.old ≤ 100 }
    ensures { line.new ≡ line.old ++ after_drops moved replies }
{
    line.push(b" moved ");
    line.push_decimal(moved);
    line.push(b" replies ");
    line.push_decimal(replies);
    line.push(b"\n");
}
