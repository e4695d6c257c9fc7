//! What is shown of a history.
ghost use Rattle.std.specs.Prelude.{◌≡◌, ◌≤◌, IfOk, OnErr, OnOk, length, map};
ghost use Rattle.std.specs.Io.KnownBytes.{Appends};
ghost use Rattle.outside_io.specs.Counts.{Rose};
ghost use Rattle.outside_io.specs.Sink.{AppendsSome};
ghost use Rattle.steer_base.specs.declared.limits.TheConstants.{MAX_PACKETS};
ghost use Rattle.history.specs.Regular.{Regular};
ghost use Rattle.replay.specs.Replays.{IsWithinTypes, shown_text, shown_with};

use crate::steps::tell_counters;
use history::{History, Lines};
use outside_io::{Sink, WriteFault};
use plan_reader::Plan;
use report::{LineBuf, render, texts_fit};
use std::alloc::Global;
use std::marker::Model;
use steer_base::{OutOfMemory, Packet};
use taps::{Tap, TapText, feed};

/// What is shown of a history: the history, the lines of its packets, and the texts of the taps
/// that were shown them.
#[derive(Drop)]
pub struct Shown<'a> {
    history: &'a History,
    lines: Lines<'a>,
    texts: Vec<TapText>,
}

impl<'a> Model for Shown<'a> {
    ghost use Rattle.report.specs.Made.{AreLinesOf};
    ghost use Rattle.replay.specs.Replays.{ShownLists};

    ghost Value = { ShownLists };

    ghost view = { λ s. record {
      history = s.history.now;
      lines = s.lines;
      texts = s.texts.items;
    } };

    ghost invariant = { λ s. AreLinesOf s.lines s.history.now };
}

impl<'a> Shown<'a> {
    /// Makes the lines of a history of a plan and these packets, and shows the taps those of the
    /// packets that arrived, each up to its detaching by the plan. The history is regular for these
    /// packets, of which there are at most `MAX_PACKETS`. If memory runs out all taps are dropped.
    pub fn make(
        alloc: Global,
        plan: &Plan,
        packets: &'a [Packet],
        history: &'a History,
        taps: Vec<Box<dyn Tap>>,
    ) -> Result<Shown<'a>, OutOfMemory>
        requires few { length packets.now ≤ MAX_PACKETS }
        requires regular { Regular packets.now (length plan.now.apps) history.now }
        ensures is { IfOk result (λ shown. shown ≡ shown_with plan.now packets.now
            (map (λ tap lines. text tap lines) taps.items) history.now) }
        ensures fits { IfOk result (IsWithinTypes plan.now) }
    {
        let lines = Lines::make(alloc, history, packets, plan.apps.len() as u8)?;
        let arrived = lines.len() as u32;
        let texts = feed(alloc, taps, &lines, arrived, plan.detach.as_slice())?;
        tell_counters(plan);
        history.numbers_fit();
        texts_fit(&texts);
        Ok(Shown {
            history,
            lines,
            texts,
        })
    }

    /// Writes the report: each line, and each text of a tap, is one piece for the sink. It takes no
    /// memory.
    #[tactic(auto, unfolding(crate::specs::Replays::shown_text))]
    pub fn write<K: Sink>(&self, line: &mut LineBuf, out: &mut K) -> Result<(), WriteFault>
        ensures whole { OnOk result
            (Appends (K.written out.old) (K.written out.new) (shown_text self.now)) }
        ensures part { OnErr result
            (AppendsSome (K.written out.old) (K.written out.new) (shown_text self.now)) }
        ensures fault { OnErr result (Rose (K.faults out.old) (K.faults out.new)) }
        ensures later { K.faults out.old ≤ K.faults out.new }
    {
        render(self.history, &self.lines, &self.texts, line, out)
    }
}
