//! The model: the machine of two hops, its steps and commands, and the good history of a run.
#![tactic(auto)]

mod command_answers;
mod desired;
mod flow_counts;
mod flow_hashes;
mod flow_key;
mod flow_numbers;
mod guesses;
mod hop_answers;
mod laws;
mod note;
mod number_maps;
mod numbered_packets;
mod packet_list;
mod settings;
mod setup;
mod short_numbers;
mod steered;
mod turns;

pub use command_answers::{is_done, refused_answer};
pub use desired::{desired_cpu, filter_for, socket_seen};
pub use flow_counts::flow_count;
pub use hop_answers::{position_of, told};
pub use laws::{
    a_capture_has_one_list_of_packets, a_history_is_good_by_its_clauses, flows_are_counted,
    packets_are_of_flows, steps_of_a_plan_are_within,
};
pub use note::Note;
pub use packet_list::{PacketList, packets};
pub use settings::InForce;
pub use setup::Given;
pub use turns::{is_idle, is_work};
