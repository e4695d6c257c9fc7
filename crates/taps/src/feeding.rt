//! Shows taps the packet lines of a history.
ghost use Rattle.std.specs.Prelude.{◌≡◌, ◌<◌, ◌+◌, map, length, slice_index_or, take, IfOk, OnOk};
ghost use Rattle.std.specs.Prelude.{List, [], ◌∷◌};
ghost use Rattle.std.specs.List.{enumerate_from};
ghost use Rattle.history.specs.declared.packet_line.PacketLine.{PacketLine};
ghost use Rattle.taps.specs.Shown.{least_after as least_of, lines_left, shown_to, text_of};

use crate::tap::{Tap, TapText};
use history::{Lines, PacketLine, PacketLines};
use std::alloc::Global;
use steer_base::{Detach, OutOfMemory, PacketId};

// A tap with the number of lines that it is shown, or the text of one that was shown them all.
#[derive(Drop)]
enum Fed<T> {
    Watching { tap: T, count: u32 },
    Finished(TapText),
}

/// Shows each tap the lines of the `arrived` packets in packet order, up to the least `after` of
/// its detachments, and returns the texts in the order of the taps. A line is made once and shown
/// to the taps one after another. A tap is finished and dropped right after its last line; one with
/// `after` 0 is shown none. A detachment that names no tap is ignored. If memory runs out, all taps
/// are dropped.
pub fn feed(
    alloc: Global,
    taps: Vec<Box<dyn Tap>>,
    lines: &Lines,
    arrived: u32,
    detach: &[Detach],
) -> Result<Vec<TapText>, OutOfMemory>
    requires { arrived ≡ length lines.now.packets }
    ensures { IfOk result
        (λ texts. texts.items
        ≡ map (λ p. text p.1 (shown_to p.0 detach.now lines.now.packets))
        (enumerate_from 0 taps.items)) }
{
    let mut fed = counted(alloc, taps, arrived, detach)?;
    let mut packets = PacketLines::of(lines);
    for id in 0..arrived {
        note_all(&mut fed, &packets.line(PacketId(id)), id)?;
    }
    finish_all(alloc, fed)
}

// The taps in their order, each with the number of lines that it is shown, or finished if it is 0.
fn counted(
    alloc: Global,
    taps: Vec<Box<dyn Tap>>,
    arrived: u32,
    detach: &[Detach],
) -> Result<Vec<Fed<Box<dyn Tap>>>, OutOfMemory>
    ensures { IfOk result
        (λ fed. (lines : List PacketLine) → arrived ≡ length lines
        → map (text_of (λ tap count. text tap (lines_left count 0 lines))) fed.items
        ≡ map (λ p. text p.1 (shown_to p.0 detach.now lines)) (enumerate_from 0 taps.items)) }
{
    let mut fed = Vec::with_capacity(alloc, taps.len())?;
    for tap in taps {
        let count = least_after(fed.len(), detach, arrived);
        let one = started(tap, count)?;
        fed.push(one)?;
    }
    Ok(fed)
}

// A tap before its first line, or finished if it is shown none.
fn started(tap: Box<dyn Tap>, count: u32) -> Result<Fed<Box<dyn Tap>>, OutOfMemory>
    ensures { IfOk result
        (λ fed. (lines : List PacketLine)
        → text_of (λ tap count. text tap (lines_left count 0 lines)) fed
        ≡ text tap (take count lines)) }
{
    let mut fed = Fed::Watching { tap, count };
    finish_at(&mut fed, 0)?;
    Ok(fed)
}

// The least of a number and of the `after` of a tap's detachments.
fn least_after(tap: usize, detach: &[Detach], count: u32) -> u32
    ensures { result ≡ least_of tap detach.now count }
{
    detach
        .iter()
        .filter(|d| d.tap as usize == tap)
        .map(|d| d.after)
        .fold(count, |least, after| least.min(after))
}

// Shows the line of a packet to each tap that still is shown lines.
fn note_all(fed: &mut [Fed<Box<dyn Tap>>], line: &PacketLine, id: u32) -> Result<(), OutOfMemory>
    ensures { OnOk result ((lines : List PacketLine) → id < length lines
        → line.now ≡ slice_index_or lines id line.now
        → map (text_of (λ tap count. text tap (lines_left count (id + 1) lines))) fed.new
        ≡ map (text_of (λ tap count. text tap (lines_left count id lines))) fed.old) }
{
    for i in 0..fed.len() {
        note_next(&mut fed[i], id, line)?;
    }
    Ok(())
}

// Shows a tap the line of a packet, unless it was shown all its lines, and finishes it after the
// last one.
fn note_next(fed: &mut Fed<Box<dyn Tap>>, id: u32, line: &PacketLine) -> Result<(), OutOfMemory>
    ensures { OnOk result
        ((lines : List PacketLine) → id < length lines
        → line.now ≡ slice_index_or lines id line.now
        → text_of (λ tap count. text tap (lines_left count (id + 1) lines)) fed.new
        ≡ text_of (λ tap count. text tap (lines_left count id lines)) fed.old) }
{
    if let Fed::Watching { tap, count } = fed
        && id < *count
    {
        note_one(tap, line)?;
        finish_at(fed, id + 1)?;
    }
    Ok(())
}

fn note_one(tap: &mut Box<dyn Tap>, line: &PacketLine) -> Result<(), OutOfMemory>
    ensures { OnOk result
        ((lines : List PacketLine) → text tap.new lines ≡ text tap.old (line.now ∷ lines)) }
{
    tap.note(line)
}

// Finishes and drops a tap if it was shown all its lines.
fn finish_at(fed: &mut Fed<Box<dyn Tap>>, shown: u32) -> Result<(), OutOfMemory>
    ensures { OnOk result
        ((lines : List PacketLine)
        → text_of (λ tap count. text tap (lines_left count shown lines)) fed.new
        ≡ text_of (λ tap count. text tap (lines_left count shown lines)) fed.old) }
{
    if let Fed::Watching { tap, count } = fed
        && *count == shown
    {
        let text = finish_one(tap)?;
        *fed = Fed::Finished(text);
    }
    Ok(())
}

fn finish_one(tap: &mut Box<dyn Tap>) -> Result<TapText, OutOfMemory>
    ensures { IfOk result (λ t. t ≡ text tap.old []) }
{
    tap.finish()
}

// The texts of the taps in their order.
fn finish_all(alloc: Global, fed: Vec<Fed<Box<dyn Tap>>>) -> Result<Vec<TapText>, OutOfMemory>
    ensures { IfOk result
        (λ texts. texts.items ≡ map (text_of (λ tap count. text tap [])) fed.items) }
{
    let mut texts = Vec::with_capacity(alloc, fed.len())?;
    for one in fed {
        let text = text_in(one)?;
        texts.push(text)?;
    }
    Ok(texts)
}

// The text of a tap, which is finished and dropped if it was not.
fn text_in(fed: Fed<Box<dyn Tap>>) -> Result<TapText, OutOfMemory>
    ensures { IfOk result (λ t. t ≡ text_of (λ tap count. text tap []) fed) }
{
    match fed {
        Fed::Watching { mut tap, count: _ } => finish_one(&mut tap),
        Fed::Finished(text) => Ok(text),
    }
}
