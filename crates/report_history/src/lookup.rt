//! What the lines of a report show of a packet.
ghost use Rattle.std.specs.Prelude.{◌≡◌};
ghost use Rattle.report_history.specs.Shown.{put_drop, shown_choice, shown_drop, shown_put};
ghost use Rattle.report_history.specs.Shown.{shown_reply, shown_sent};

use history::Sent;
use report_reader::{SeenList, SeenReply};
use steer_base::{Choice, LaneDrop, PacketId, Put};

// The choice for a packet.
pub(crate) fn shown_choice(seen: &SeenList, id: PacketId) -> Option<Choice>
    ensures { result ≡ shown_choice seen.now id }
{
    seen.packet(id.0 as usize)?.choice
}

// What became of it at its lane.
fn shown_put(seen: &SeenList, id: PacketId) -> Option<Put>
    ensures { result ≡ shown_put seen.now id }
{
    seen.packet(id.0 as usize)?.put
}

// The line of its reply.
pub(crate) fn shown_reply(seen: &SeenList, id: PacketId) -> Option<SeenReply>
    ensures { result ≡ shown_reply seen.now id }
{
    seen.reply(id.0 as usize)
}

// The drop of a packet, by the result of its put.
fn put_drop(id: PacketId, put: Put) -> Option<LaneDrop>
    ensures { result ≡ put_drop id put }
{
    match put {
        Put::At(_) => None,
        Put::Dropped {
            number: _,
            accepted,
            pulled,
            cause,
        } => Some(LaneDrop {
            id,
            accepted,
            pulled,
            cause,
        }),
    }
}

// The drop of a packet.
pub(crate) fn shown_drop(seen: &SeenList, id: PacketId) -> Option<LaneDrop>
    ensures { result ≡ shown_drop seen.now id }
{
    put_drop(id, shown_put(seen, id)?)
}

// The reply to a packet.
pub(crate) fn shown_sent(seen: &SeenList, id: PacketId) -> Option<Sent>
    ensures { result ≡ shown_sent seen.now id }
{
    let reply = shown_reply(seen, id)?;
    Some(Sent {
        id,
        rxq: reply.rxq,
        cpu: reply.cpu,
    })
}
