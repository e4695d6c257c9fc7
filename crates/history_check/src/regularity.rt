//! Decides whether a history is regular, in one pass over each of its lists.
ghost use Rattle.std.specs.Prelude.{◌≡◌, ◌≤◌, ◌↔◌, IfOk, IsTrue, length, true};
ghost use Rattle.steer_base.specs.declared.limits.TheConstants.{MAX_PACKETS};
ghost use Rattle.history.specs.Regular.{Regular, has_text};
ghost use Rattle.history_check.specs.Tests.{has_shape, has_short_lists, have_texts, passes};

use crate::item_test::ItemTest;
use crate::polling::are_polled;
use crate::shape::{has_shape, has_short_lists};
use history::{Counted, History, Known};
use std::alloc::Global;
use steer_base::{Answer, Idle, OutOfMemory, Packet};

// Whether an answer has a text in a report.
fn has_text(answer: &Answer) -> bool
    ensures { result ≡ has_text answer.now }
{
    match answer {
        Answer::Idle(why) => *why == Idle::AlreadyOnline,
        _ => true,
    }
}

fn have_texts(h: &History) -> bool
    ensures { result ≡ have_texts h.now }
{
    h.commands.as_slice().iter().all(|c| has_text(&c.answer))
}

// The rest of the test, over the lists' indices.
fn passes(alloc: Global, h: &History, packets: &[Packet], apps: u8) -> Result<bool, OutOfMemory>
    requires shape { has_shape packets.now apps h.now ≡ true }
    requires short { has_short_lists h.now ≡ true }
    requires apps { 1 ≤ apps }
    requires few { length packets.now ≤ MAX_PACKETS }
    ensures { IfOk result (λ passed. passed ≡ passes packets.now apps h.now) }
{
    let known = Known::make(alloc, h)?;
    let counted = Counted::make(alloc, h)?;
    let items = ItemTest {
        h,
        known: &known,
        packets,
        apps,
    };
    Ok(
        are_polled(alloc, h, &counted)?
            && items.are_steered()
            && items.are_delivered()
            && items.have_replies()
            && items.are_shipped()
            && have_texts(h),
    )
}

/// Decides whether a history is regular for these packets and `apps` applications, as lines
/// require: whether each list agrees with those before it on the way of a packet. Takes time and
/// memory linear in the packets and the receive queues, and frees the memory at the end.
pub fn is_regular(
    alloc: Global,
    history: &History,
    packets: &[Packet],
    apps: u8,
) -> Result<bool, OutOfMemory>
    requires apps { 1 ≤ apps }
    requires few { length packets.now ≤ MAX_PACKETS }
    ensures { IfOk result (λ regular. IsTrue regular ↔ Regular packets.now apps history.now) }
{
    if has_shape(history, packets, apps as usize) && has_short_lists(history) {
        passes(alloc, history, packets, apps)
    } else {
        Ok(false)
    }
}
