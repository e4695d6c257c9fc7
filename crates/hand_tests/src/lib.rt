//! Tests of the hands of a worker over the real board, and of the words that they begin with.
#![tactic(auto)]

#[cfg(test)]
mod bench;
#[cfg(test)]
mod drains;
#[cfg(test)]
mod first_words;
#[cfg(test)]
mod frames;
#[cfg(test)]
mod gates;
#[cfg(test)]
mod hands;
#[cfg(test)]
mod offices;
#[cfg(test)]
mod pollers;
#[cfg(test)]
mod servers;
#[cfg(test)]
mod serving;
#[cfg(test)]
mod threads;
