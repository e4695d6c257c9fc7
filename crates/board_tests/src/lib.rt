//! Tests of boards: the words of their steps, the lanes that seats hold, and the calls of seats
//! that take turns and that run in threads.
#![tactic(auto)]

#[cfg(test)]
mod closer;
#[cfg(test)]
mod crew;
#[cfg(test)]
mod equal;
#[cfg(test)]
mod gate;
#[cfg(test)]
mod held;
#[cfg(test)]
mod largest;
#[cfg(test)]
mod notes;
#[cfg(test)]
mod rounds;
#[cfg(test)]
mod threads;
#[cfg(test)]
mod told;
#[cfg(test)]
mod turns;
#[cfg(test)]
mod words;
#[cfg(test)]
mod worker;
