//! Tests of the shared names and types, of files and sinks, and of the seats and words of
//! threads.
#![tactic(auto)]

#[cfg(test)]
mod buffered;
#[cfg(test)]
mod desks;
#[cfg(test)]
mod equal;
#[cfg(test)]
mod hints;
#[cfg(test)]
mod interrupted;
#[cfg(test)]
mod seats;
#[cfg(test)]
mod shared;
#[cfg(test)]
mod shared_words;
#[cfg(test)]
mod sinks;
