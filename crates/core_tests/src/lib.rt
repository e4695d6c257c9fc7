//! Tests of the machine: worked replays as tables, each command refused, and the largest plan.
#![tactic(auto)]

#[cfg(test)]
mod changes;
#[cfg(test)]
mod commands;
#[cfg(test)]
mod equal;
#[cfg(test)]
mod events;
#[cfg(test)]
mod filter_rows;
#[cfg(test)]
mod flow_limit;
#[cfg(test)]
mod frames;
#[cfg(test)]
mod largest;
#[cfg(test)]
mod machine;
#[cfg(test)]
mod replays;
#[cfg(test)]
mod rows;
#[cfg(test)]
mod wanted;
