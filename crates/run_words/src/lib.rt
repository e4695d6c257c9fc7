//! What the threads of a run share: the hint words and the settings of the boards by their numbers,
//! what the values mean and which a plan begins with, the seats at the boards, and the pace that a
//! caller sets.
#![tactic(auto)]

mod first;
mod hint_word;
mod laws;
mod pace;
mod seats;
mod setting;
mod shared;
mod values;

pub use first::{first_hint, first_receive_settings, first_transmit_settings};
pub use hint_word::{
    DONE_WORD, FILTER_WORDS, HintWord, PACKET_WORDS, REDIRECTION_WORDS, STAND_WORDS, word_count,
};
pub use laws::{
    coded_values_read_back, first_values_stand, only_coded_values_are_read, words_lie_apart,
};
pub use pace::{Extent, Pace};
pub use seats::Seats;
pub use setting::{ReceiveSetting, TransmitSetting};
pub use shared::Shared;
pub use values::{
    CPU_WEIGHT, DONE, MARK_WEIGHT, STEERED, cpus_in, cpus_word, filter_in, filter_word, flows_in,
    flows_word, is_done, place_in, place_word, queues_in, queues_word, socket_size_in,
    socket_size_word,
};
