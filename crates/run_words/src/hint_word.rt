//! The words that threads share beside their boards, and their numbers.
ghost use Rattle.std.specs.Prelude.{◌≡◌, ◌≤◌};
ghost use Rattle.steer_base.specs.declared.limits.TheConstants.{MAX_PACKETS};
ghost use Rattle.run_words.specs.Numbers.{IsHintWord, hint_number};
ghost use Rattle.run_words.specs.Numbers as numbers;

use plan_reader::MAX_PLAN_FILTERS;
use rss_table::RETA_ENTRIES;
use steer_base::{AppId, MAX_SOCKET_SIZE, PacketId};

/// The number of the first word of the redirection table; those of the socket flow table are before
/// it.
pub const REDIRECTION_WORDS: u32 = MAX_SOCKET_SIZE;

/// The number of the first word of the processors on which the applications run.
pub const STAND_WORDS: u32 = REDIRECTION_WORDS + RETA_ENTRIES as u32;

/// The number of the first word of the filters; there are at most 32 applications.
pub const FILTER_WORDS: u32 = STAND_WORDS + 32;

/// The number of the word that says whether all packets have arrived.
pub const DONE_WORD: u32 = FILTER_WORDS + MAX_PLAN_FILTERS;

/// The number of the first word of the packets, each of which has two: its receive queue, and
/// whether it is steered.
pub const PACKET_WORDS: u32 = DONE_WORD + 1;

/// A word that threads share beside their boards.
#[derive(Clone, Copy, Debug, PartialEq, Eq)]
pub enum HintWord {
    /// An entry of the socket flow table, from 0: the processor on which a flow's reader last ran.
    Socket(u32),
    /// An entry of the redirection table, from 0: a receive queue.
    Redirection(u8),
    /// The processor on which an application runs.
    Stand(AppId),
    /// An entry of the filter table, from 0.
    Filter(u32),
    /// Whether all packets have arrived.
    Done,
    /// The receive queue at which a packet arrived.
    Queue(PacketId),
    /// Whether the poller of a packet has chosen its processor.
    Steered(PacketId),
}

impl HintWord {
    /// The number of the word.
    pub fn number(self) -> u32
        requires { IsHintWord MAX_PACKETS self }
        ensures { result ≡ hint_number self }
    {
        match self {
            HintWord::Socket(entry) => entry,
            HintWord::Redirection(entry) => REDIRECTION_WORDS + entry as u32,
            HintWord::Stand(app) => STAND_WORDS + app.0 as u32,
            HintWord::Filter(entry) => FILTER_WORDS + entry,
            HintWord::Done => DONE_WORD,
            HintWord::Queue(id) => PACKET_WORDS + 2 * id.0,
            HintWord::Steered(id) => PACKET_WORDS + 2 * id.0 + 1,
        }
    }
}

/// The number of words for so many packets, which is at most `MAX_PACKETS`.
pub fn word_count(packets: u32) -> u32
    requires { packets ≤ MAX_PACKETS }
    ensures { result ≡ numbers.word_count packets }
{
    PACKET_WORDS + 2 * packets
}
