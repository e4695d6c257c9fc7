//! Tests of the replayer's top call.
#![tactic(auto)]

#[cfg(test)]
mod calls;
#[cfg(test)]
mod check_command;
#[cfg(test)]
mod files;
#[cfg(test)]
mod gen_command;
#[cfg(test)]
mod hash_command;
#[cfg(test)]
mod pcapng;
#[cfg(test)]
mod place_command;
#[cfg(test)]
mod plans;
#[cfg(test)]
mod readme;
#[cfg(test)]
mod replay_command;
#[cfg(test)]
mod replay_faults;
#[cfg(test)]
mod replay_taps;
#[cfg(test)]
mod slow;
#[cfg(test)]
mod vectors;
#[cfg(test)]
mod worked;
