//! Texts of the three kinds, and taps of the tests that count their drops.
ghost use Rattle.std.specs.Prelude.{◌≡◌, length};

use crate::equal::{same, same_items};
use crate::histories::{PLAIN, lines_of, none, received, segment};
use history::{History, Lines, PacketLine, Place, Via};
use std::alloc::Global;
use std::cell::Cell;
use std::process::Abort;
use std::rc::Rc;
use std::test::Fail;
use steer_base::{
    AppId, Choice, Cpu, Detach, DropCause, OutOfMemory, Packet, PacketId, Put, RxQueue,
};
use taps::{Depth, PerCpu, PerFlow, Tap, TapText, feed};

// The line of a packet that waits in its ring.
fn in_ring(flow_number: u32) -> PacketLine {
    PacketLine {
        id: PacketId(0),
        queue: RxQueue(0),
        via: Via::Reta,
        choice: None,
        put: None,
        app: AppId(0),
        inbox: None,
        place: Place::Ring,
        flow_number,
    }
}

// The line of a packet that was put to a lane.
fn line(flow_number: u32, lane: u8, put: Put) -> PacketLine {
    PacketLine {
        choice: Some(Choice { lane, ..PLAIN }),
        put: Some(put),
        place: Place::Backlog(Cpu(lane)),
        ..in_ring(flow_number)
    }
}

fn text_after<T: Tap>(mut tap: T, lines: &[PacketLine]) -> Result<TapText, OutOfMemory> {
    for line in lines {
        tap.note(line)?;
    }
    tap.finish()
}

#[test]
fn each_kind_gives_its_text(rt: HostRuntime) -> Result<(), Fail> {
    let alloc = rt.alloc();
    let lines = [
        line(0, 1, Put::At(1)),
        line(0, 1, Put::At(2)),
        line(0, 1, Put::At(3)),
        line(0, 2, Put::At(1)),
    ];
    let text = text_after(PerCpu::make(alloc), &lines[..2])?;
    same_items(&rt, &text.bytes, b"cpu 1 packets 2\n");
    let text = text_after(PerFlow::make(alloc), &lines)?;
    same_items(&rt, &text.bytes, b"flow 0 packets 4\n");
    let text = text_after(Depth::make(alloc), &lines)?;
    same_items(&rt, &text.bytes, b"depth cpu 1 at 3\ndepth cpu 2 at 1\n");
    Ok(())
}

#[test]
fn drops_waiting_packets_and_wrapped_positions(rt: HostRuntime) -> Result<(), Fail> {
    let alloc = rt.alloc();
    let dropped = Put::Dropped {
        number: 1,
        accepted: 1,
        pulled: 0,
        cause: DropCause::Full,
    };
    let lines = [
        line(7, 1, Put::At(4294967295)),
        line(0, 2, Put::At(4294967295)),
        line(7, 1, Put::At(0)),
        line(7, 0, dropped),
        line(7, 1, Put::At(1)),
        in_ring(3),
    ];
    let text = text_after(PerCpu::make(alloc), &lines)?;
    same_items(
        &rt,
        &text.bytes,
        b"cpu 0 packets 1\ncpu 1 packets 3\ncpu 2 packets 1\n",
    );
    let text = text_after(PerFlow::make(alloc), &lines)?;
    same_items(
        &rt,
        &text.bytes,
        b"flow 7 packets 4\nflow 0 packets 1\nflow 3 packets 1\n",
    );
    let text = text_after(Depth::make(alloc), &lines)?;
    same_items(
        &rt,
        &text.bytes,
        b"depth cpu 1 at 1\ndepth cpu 2 at 4294967295\n",
    );
    Ok(())
}

// A tap that counts its lines and its drops, notes how many taps were dropped when it was last
// shown a line, and finds no memory for a line of this number.
struct Counting {
    alloc: Global,
    lines: Rc<Cell<u32>>,
    dropped: Rc<Cell<u32>>,
    drops: Rc<Cell<u32>>,
    failing: u32,
}

impl Drop for Counting {
    fn drop(self) {
        let Counting {
            alloc: _,
            lines: _,
            dropped: _,
            drops,
            failing: _,
        } = self;
        drops.set(drops.get().wrapping_add(1));
    }
}

impl Tap for Counting {
    ghost use Rattle.std.specs.Prelude.{[]};

    ghost text = { λ tap lines. [] };

    fn note(&mut self, _: &PacketLine) -> Result<(), OutOfMemory> {
        self.lines.set(self.lines.get().wrapping_add(1));
        self.dropped.set(self.drops.get());
        if self.lines.get() == self.failing {
            Err(OutOfMemory)
        } else {
            Ok(())
        }
    }

    fn finish(&mut self) -> Result<TapText, OutOfMemory> {
        Ok(TapText {
            bytes: Vec::new(self.alloc),
        })
    }
}

// The lines of a history of three packets.
fn three_lines<'a>(
    rt: &impl Abort,
    alloc: Global,
    h: &'a History,
    packets: &'a [Packet; 3],
) -> Lines<'a>
    ensures { length result.packets ≡ 3 }
{
    let lines = lines_of(rt, alloc, h, packets, 1);
    assert!(rt; lines.len() == 3);
    lines
}

// Whether two taps are fed with three lines, of which the second tap finds no memory for the one of
// this number, how many of the taps are dropped, how many lines each sees, and how many taps were
// dropped when the last line was shown.
fn fed(alloc: Global, lines: &Lines, failing: u32) -> Result<(bool, u32, u32, u32, u32), Fail>
    requires { length lines.now.packets ≡ 3 }
{
    let detach = [
        Detach { tap: 0, after: 2 },
        Detach { tap: 0, after: 1 },
        Detach { tap: 9, after: 0 },
    ];
    let drops = Rc::new(alloc, Cell::new(0))?;
    let dropped = Rc::new(alloc, Cell::new(0))?;
    let first = Rc::new(alloc, Cell::new(0))?;
    let second = Rc::new(alloc, Cell::new(0))?;
    let mut taps = Vec::new(alloc);
    for (lines, failing) in [(&first, 0), (&second, failing)] {
        let tap: Box<dyn Tap> = Box::new(
            alloc,
            Counting {
                alloc,
                lines: lines.clone()?,
                dropped: dropped.clone()?,
                drops: drops.clone()?,
                failing,
            },
        )?;
        taps.push(tap)?;
    }
    let answered = feed(alloc, taps, lines, 3, &detach).is_ok();
    Ok((
        answered,
        drops.get(),
        first.get(),
        second.get(),
        dropped.get(),
    ))
}

#[test]
fn every_tap_is_dropped_once(rt: HostRuntime) -> Result<(), Fail> {
    let alloc = rt.alloc();
    // Three packets wait in the ring of their queue.
    let h = received(&rt, alloc, &[0; 3], &[], none(alloc), &[]);
    let packets = [segment(), segment(), segment()];
    let lines = three_lines(&rt, alloc, &h, &packets);
    same(&rt, &fed(alloc, &lines, 9)?, &(true, 2, 1, 3, 1), 0);
    same(&rt, &fed(alloc, &lines, 2)?, &(false, 2, 1, 2, 1), 1);
    Ok(())
}
