//! The lines of packets and of replies.
ghost use Rattle.std.specs.Prelude.{◌≡◌, ◌≤◌, ◌+◌, ◌++◌, [], ◌∷◌, Some, codes, length};
ghost use Rattle.report.specs.Lines.{cause_fields, last_fields, or_dash, packet_row, place_word};
ghost use Rattle.report.specs.Lines.{put_fields, reply_row, via_word, why_word};
ghost use Rattle.report.specs.Pieces.{choice_fields, front_fields, pick_fields, reply_front_fields};
ghost use Rattle.report.specs.Pieces.{reply_last_fields, spaced};
ghost use Rattle.report.specs.Texts.{row_text};

use crate::fields::{push_after, push_lane, push_number, push_option};
use crate::line::LineBuf;
use history::{PacketLine, Place, ReplyLine, Via};
use steer_base::{Choice, DropCause, Put, Why};

/// The line of a packet that arrived. No line of a report is longer than one of a packet that the
/// flow limit dropped: 79 bytes of words, spaces and the line feed, and at most 122 of values (9
/// numbers of ten digits, 4 of three, and the words for `via`, `why` and `place`), so 201 of the
/// 512 that a line may have.
pub(crate) fn packet_line(buf: &mut LineBuf, line: &PacketLine)
    ensures { buf.new ≡ row_text (packet_row line.now) }
{
    push_front(buf, line);
    push_choice(buf, line.choice);
    push_put(buf, line.put);
    push_last(buf, line);
    buf.push(b"\n");
}

fn push_front(buf: &mut LineBuf, line: &PacketLine)
    ensures text { buf.new ≡ codes "p" ++ spaced (front_fields line.now) }
    ensures short { length buf.new ≤ 60 }
{
    buf.clear();
    push_after(buf, b"p ", u64::from(line.id.0));
    push_after(buf, b" q ", u64::from(line.queue.0));
    push_via(buf, line.via);
}

fn push_via(buf: &mut LineBuf, via: Via)
    requires { length buf.old + 11 ≤ 512 }
    ensures text { buf.new ≡ buf.old ++ spaced (codes "via" ∷ via_word via ∷ []) }
    ensures grows { length buf.new ≤ length buf.old + 11 }
{
    match via {
        Via::Filter => buf.push(b" via filter"),
        Via::Reta => buf.push(b" via reta"),
        Via::Unhashed => buf.push(b" via none"),
    }
}

fn push_choice(buf: &mut LineBuf, choice: Option<Choice>)
    requires { length buf.old ≤ 100 }
    ensures text { buf.new ≡ buf.old ++ spaced (choice_fields choice) }
    ensures grows { length buf.new ≤ length buf.old + 150 }
{
    match choice {
        Some(choice) => {
            push_option(buf, b" class ", choice.class);
            push_lane(buf, b" want ", choice.want);
            push_numbers(buf, choice.head, choice.tail);
            push_after(buf, b" cpu ", u64::from(choice.lane));
            push_why(buf, choice.why);
        }
        None => buf.push(b" class - want - head - tail - cpu - why -"),
    }
}

// The counter numbers that a choice noted.
#[inline(always)]
fn push_numbers(buf: &mut LineBuf, head: Option<u32>, tail: Option<u32>)
    requires { length buf.old ≤ 200 }
    ensures text { buf.new ≡ buf.old
        ++ spaced (codes "head" ∷ or_dash head ∷ codes "tail" ∷ or_dash tail ∷ []) }
    ensures grows { length buf.new ≤ length buf.old + 52 }
{
    push_option(buf, b" head ", head);
    push_option(buf, b" tail ", tail);
}

#[inline(always)]
fn push_why(buf: &mut LineBuf, why: Why)
    requires { length buf.old + 12 ≤ 512 }
    ensures text { buf.new ≡ buf.old ++ spaced (codes "why" ∷ why_word (Some why) ∷ []) }
    ensures grows { length buf.new ≤ length buf.old + 12 }
{
    match why {
        Why::Plain => buf.push(b" why plain"),
        Why::Same => buf.push(b" why same"),
        Why::Unset => buf.push(b" why unset"),
        Why::Offline => buf.push(b" why offline"),
        Why::Passed => buf.push(b" why passed"),
        Why::Kept => buf.push(b" why kept"),
    }
}

fn push_put(buf: &mut LineBuf, put: Option<Put>)
    requires { length buf.old ≤ 260 }
    ensures text { buf.new ≡ buf.old ++ spaced (codes "at" ∷ put_fields put) }
    ensures grows { length buf.new ≤ length buf.old + 100 }
{
    match put {
        None => buf.push(b" at -"),
        Some(Put::At(position)) => push_after(buf, b" at ", u64::from(position)),
        Some(
            Put::Dropped {
                number,
                accepted,
                pulled,
                cause,
            },
        ) => {
            push_after(buf, b" at drop ", u64::from(number));
            push_number(buf, u64::from(accepted));
            push_number(buf, u64::from(pulled));
            push_cause(buf, cause);
        }
    }
}

fn push_cause(buf: &mut LineBuf, cause: DropCause)
    requires { length buf.old ≤ 400 }
    ensures text { buf.new ≡ buf.old ++ spaced (cause_fields cause) }
    ensures grows { length buf.new ≤ length buf.old + 26 }
{
    match cause {
        DropCause::Full => {}
        DropCause::Flow(offers) => push_after(buf, b" flow ", u64::from(offers)),
    }
}

fn push_last(buf: &mut LineBuf, line: &PacketLine)
    requires { length buf.old ≤ 400 }
    ensures text { buf.new ≡ buf.old ++ spaced (last_fields line.now) }
    ensures grows { length buf.new ≤ length buf.old + 65 }
{
    push_after(buf, b" app ", u64::from(line.app.0));
    push_option(buf, b" in ", line.inbox);
    push_place(buf, line.place);
}

fn push_place(buf: &mut LineBuf, place: Place)
    requires { length buf.old + 14 ≤ 512 }
    ensures text { buf.new ≡ buf.old ++ spaced (codes "place" ∷ place_word place ∷ []) }
    ensures grows { length buf.new ≤ length buf.old + 14 }
{
    match place {
        Place::Ring => buf.push(b" place ring"),
        Place::Poller => buf.push(b" place poller"),
        Place::Backlog(_) => buf.push(b" place backlog"),
        Place::Hand(_) => buf.push(b" place hand"),
        Place::Inbox(_) => buf.push(b" place inbox"),
        Place::Dropped(_) => buf.push(b" place drop"),
    }
}

/// The line of a reply that was begun.
pub(crate) fn reply_line(buf: &mut LineBuf, line: &ReplyLine)
    ensures { buf.new ≡ row_text (reply_row line.now) }
{
    push_reply_front(buf, line);
    push_pick(buf, line.choice);
    push_reply_last(buf, line);
    buf.push(b"\n");
}

fn push_reply_front(buf: &mut LineBuf, line: &ReplyLine)
    ensures text { buf.new ≡ codes "r" ++ spaced (reply_front_fields line.now) }
    ensures short { length buf.new ≤ 98 }
{
    buf.clear();
    push_after(buf, b"r ", u64::from(line.id.0));
    push_after(buf, b" app ", u64::from(line.app.0));
    push_after(buf, b" rxq ", u64::from(line.rxq.0));
    push_after(buf, b" cpu ", u64::from(line.cpu.0));
}

fn push_pick(buf: &mut LineBuf, choice: Option<Choice>)
    requires { length buf.old ≤ 100 }
    ensures text { buf.new ≡ buf.old ++ spaced (pick_fields choice) }
    ensures grows { length buf.new ≤ length buf.old + 150 }
{
    match choice {
        Some(choice) => {
            push_lane(buf, b" pick ", choice.want);
            push_numbers(buf, choice.head, choice.tail);
            push_after(buf, b" tx ", u64::from(choice.lane));
            push_why(buf, choice.why);
        }
        None => buf.push(b" pick - head - tail - tx - why -"),
    }
}

fn push_reply_last(buf: &mut LineBuf, line: &ReplyLine)
    requires { length buf.old ≤ 400 }
    ensures text { buf.new ≡ buf.old ++ spaced (reply_last_fields line.now) }
    ensures grows { length buf.new ≤ length buf.old + 50 }
{
    push_option(buf, b" at ", line.put);
    push_option(buf, b" port ", line.port);
}
