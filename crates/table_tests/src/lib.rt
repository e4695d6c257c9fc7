//! Tests of the tables, the lanes and the hop, by worked traces.
#![tactic(auto)]

#[cfg(test)]
mod buckets;
#[cfg(test)]
mod dev_flow;
#[cfg(test)]
mod equal;
#[cfg(test)]
mod filters;
#[cfg(test)]
mod hop;
#[cfg(test)]
mod lanes;
#[cfg(test)]
mod online;
#[cfg(test)]
mod reta;
#[cfg(test)]
mod rps;
#[cfg(test)]
mod sock_flow;
#[cfg(test)]
mod traces;
#[cfg(test)]
mod xps;
