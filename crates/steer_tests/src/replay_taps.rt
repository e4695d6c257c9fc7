//! The command `replay` with taps.
use crate::calls::{Outcome, called_with, comes_to, desk_of, same, same_bytes};
use crate::files::{FOUR_FRAMES, file};
use crate::plans::{FOUR_STEPS, ONE_FLOW, REPLAY, four_lines, plan_of};
use history::PacketLine;
use std::alloc::Global;
use std::cell::Cell;
use std::process::Abort;
use std::rc::Rc;
use std::test::Fail;
use steer_base::OutOfMemory;
use taps::{PerCpu, PerFlow, Tap, TapText};

// What the replay of four packets of one flow comes to, with these settings and taps.
fn observed(alloc: Global, settings: &[u8], taps: Vec<Box<dyn Tap>>) -> Result<Outcome, Fail> {
    let plan = plan_of(alloc, settings, FOUR_STEPS)?;
    let capture = file(alloc, &FOUR_FRAMES)?;
    let files = [("p.json", plan.as_slice()), ("a.pcap", capture.as_slice())];
    let mut desk = desk_of(alloc, &files, &[])?;
    called_with(alloc, &REPLAY, &mut desk, taps)
}

const DETACHED: &[u8] =
    br#""cpus":4,"queues":[{"home":0,"mask":[1],"flows":1}],"sock":4,"detach":[{"tap":0,
        "after":2}],"apps":[2],"tx":[{"cpus":[],"queues":[]}]"#;

const TEXTS: &[u8] =
    b"tap 0 bytes 16\ncpu 1 packets 2\ntap 1 bytes 17\nflow 0 packets 4\nend 4 of 4\n";

#[test]
fn texts_of_taps_stand_before_the_end(rt: HostRuntime) -> Result<(), Fail> {
    let alloc = rt.alloc();
    let per_cpu: Box<dyn Tap> = Box::new(alloc, PerCpu::make(alloc))?;
    let per_flow: Box<dyn Tap> = Box::new(alloc, PerFlow::make(alloc))?;
    let mut taps = Vec::new(alloc);
    taps.push(per_cpu)?;
    taps.push(per_flow)?;
    let got = observed(alloc, DETACHED, taps)?;
    same(&rt, &got.status, &0, 0);
    has_texts(&rt, &got.out);
    Ok(())
}

// The report has the texts of the two taps before its last line.
fn has_texts(rt: &impl Abort, report: &[u8]) {
    let lines = four_lines();
    let (before, texts) = report.split_at(lines.len().min(report.len()));
    same_bytes(rt, before, lines, 0);
    same_bytes(rt, texts, TEXTS, 1);
}

// A tap that counts its lines and its drops, and finds no memory for its second line where it is
// told so.
struct Counting {
    alloc: Global,
    lines: u32,
    drops: Rc<Cell<u32>>,
    fails: bool,
}

impl Drop for Counting {
    fn drop(self) {
        let Counting {
            alloc: _,
            lines: _,
            drops,
            fails: _,
        } = self;
        drops.set(drops.get().wrapping_add(1));
    }
}

impl Tap for Counting {
    ghost use Rattle.std.specs.Prelude.{[]};

    ghost text = { λ tap lines. [] };

    fn note(&mut self, _: &PacketLine) -> Result<(), OutOfMemory> {
        self.lines = self.lines.saturating_add(1);
        if self.fails && self.lines == 2 {
            Err(OutOfMemory)
        } else {
            Ok(())
        }
    }

    fn finish(&mut self) -> Result<TapText, OutOfMemory> {
        Ok(TapText {
            bytes: Vec::new(self.alloc),
        })
    }
}

#[test]
fn a_tap_without_memory_ends_the_replay(rt: HostRuntime) -> Result<(), Fail> {
    let alloc = rt.alloc();
    let drops = Rc::new(alloc, Cell::new(0))?;
    let mut taps: Vec<Box<dyn Tap>> = Vec::new(alloc);
    for fails in [false, true, false] {
        let tap: Box<dyn Tap> = Box::new(
            alloc,
            Counting {
                alloc,
                lines: 0,
                drops: drops.clone()?,
                fails,
            },
        )?;
        taps.push(tap)?;
    }
    let got = observed(alloc, ONE_FLOW, taps)?;
    comes_to(&rt, &got, 7, b"", b"out of memory\n", 0);
    same(&rt, &drops.get(), &3, 0);
    Ok(())
}
