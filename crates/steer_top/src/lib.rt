//! The top call of the replayer: words in, one text and one status out.
#![tactic(auto)]

mod check_command;
mod command;
mod ending;
mod file;
mod flow_list;
mod flushing;
mod gen_command;
mod hash_command;
mod hash_line;
mod hasher;
mod in_memory;
mod input;
mod laws;
mod live;
mod place_command;
mod placed_list;
mod placer;
mod replay_command;
mod report_text;
mod run_command;
mod status;
mod still;
mod telling;
mod top;
mod words;
mod writing;

pub use in_memory::{InMemory, steer_in_memory};
pub use laws::{
    a_call_is_decided, a_replay_is_checked, a_run_is_found_good, both_directions_have_one_queue,
    texts_are_functions,
};
pub use live::steer_live;
pub use still::steer_still;
pub use top::steer;
