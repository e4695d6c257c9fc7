//! The history that the parts of a report show.
ghost use Rattle.std.specs.Prelude.{◌≡◌, ◌≤◌, IfOk, length};
ghost use Rattle.steer_base.specs.declared.limits.TheConstants.{MAX_PACKETS};
ghost use Rattle.report_history.specs.Printed.{IsBuilt, IsOnlyHistory};

use crate::arrivals::arrivals;
use crate::choices::choices;
use crate::lanes::{backlogs, inboxes, tx_queues};
use crate::replies::{Replied, all_replies};
use crate::writes::all_writes;
use history::{History, lines_fit};
use report_reader::shelf::shelf;
use report_reader::{Kind, Parts, SeenList};
use std::alloc::Global;
use std::mem;
use steer_base::{List, OutOfMemory, Packet};
use taps::TapText;

/// The history that a report shows, and the texts of its taps.
#[derive(Drop)]
pub struct Printed {
    /// The history.
    pub history: History,
    /// The texts of the taps.
    pub texts: Vec<TapText>,
}

// A history without packets.
fn nothing(alloc: Global, start: u32) -> Printed {
    Printed {
        history: History {
            total: 0,
            cut: None,
            arrivals: List::from_vec(Vec::new(alloc)),
            taken: List::from_vec(Vec::new(alloc)),
            choices: List::from_vec(Vec::new(alloc)),
            lanes: List::from_vec(Vec::new(alloc)),
            inboxes: List::from_vec(Vec::new(alloc)),
            sent: List::from_vec(Vec::new(alloc)),
            tx_choices: List::from_vec(Vec::new(alloc)),
            tx_lanes: List::from_vec(Vec::new(alloc)),
            port: List::from_vec(Vec::new(alloc)),
            writes: List::from_vec(Vec::new(alloc)),
            commands: List::from_vec(Vec::new(alloc)),
            start,
        },
        texts: Vec::new(alloc),
    }
}

// The history that is built of these parts, with the lines of packets put together.
fn built(
    alloc: Global,
    parts: Parts,
    seen: &SeenList,
    packets: &[Packet],
    apps: u8,
    start: u32,
) -> Result<Printed, OutOfMemory>
    requires few { length seen.now ≤ MAX_PACKETS }
    ensures history { IfOk result
        (λ p. IsBuilt packets.now apps start parts seen.now p.history) }
    ensures texts { IfOk result (λ p. p.texts.items ≡ parts.texts.items) }
{
    let arrivals = arrivals(alloc, seen)?;
    let choices = choices(alloc, seen, &arrivals, parts.taken.len())?;
    let inboxes = inboxes(alloc, seen, apps, start)?;
    let Replied { sent, tx_choices } = all_replies(alloc, seen, packets, &inboxes)?;
    let lanes = backlogs(alloc, seen, &parts.cpus, start)?;
    let tx_lanes = tx_queues(alloc, seen, &parts.txs, start)?;
    Ok(Printed {
        history: History {
            total: parts.last.total,
            cut: parts.last.cut,
            arrivals: List::from_vec(arrivals),
            taken: List::from_vec(parts.taken),
            choices: List::from_vec(choices),
            lanes: List::from_vec(lanes),
            inboxes: List::from_vec(inboxes),
            sent: List::from_vec(sent),
            tx_choices: List::from_vec(tx_choices),
            tx_lanes: List::from_vec(tx_lanes),
            port: List::from_vec(shelf(alloc, seen, Kind::Port, 0, start)?),
            writes: List::from_vec(all_writes(alloc, &parts.writes, apps)?),
            commands: List::from_vec(parts.commands),
            start,
        },
        texts: parts.texts,
    })
}

/// The history whose report has these parts, for the packets of a capture, a number of applications
/// and a start of the counters, and the texts of its taps. If no history has them, the result is
/// some history.
pub fn history_of(
    alloc: Global,
    mut parts: Parts,
    packets: &[Packet],
    apps: u8,
    start: u32,
) -> Result<Printed, OutOfMemory>
    requires few { length packets.now ≤ MAX_PACKETS }
    ensures only { IfOk result
        (λ p. IsOnlyHistory packets.now apps start parts p.history p.texts.items) }
{
    lines_fit();
    if parts.packets.len() > packets.len() {
        return Ok(nothing(alloc, start));
    }
    let lines = mem::replace(&mut parts.packets, Vec::new(alloc));
    let replies = mem::replace(&mut parts.replies, Vec::new(alloc));
    let seen = SeenList::join(alloc, lines, replies)?;
    built(alloc, parts, &seen, packets, apps, start)
}
