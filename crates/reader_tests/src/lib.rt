//! Tests of the readers of captures, frames, hashes, plans and rules, and of generated input.
#![tactic(auto)]

#[cfg(test)]
mod frames;
#[cfg(test)]
mod generated;
#[cfg(test)]
mod hashes;
#[cfg(test)]
mod pcap;
#[cfg(test)]
mod pcapng;
#[cfg(test)]
mod pieces;
#[cfg(test)]
mod plans;
#[cfg(test)]
mod rules;
#[cfg(test)]
mod seeds;
#[cfg(test)]
mod streams;
#[cfg(test)]
mod tunnels;
