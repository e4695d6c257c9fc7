//! Tests of histories and their lines, of taps, reports, and parts of the machine.
#![tactic(auto)]

#[cfg(test)]
mod equal;
#[cfg(test)]
mod histories;
#[cfg(test)]
mod large;
#[cfg(test)]
mod line_buf;
#[cfg(test)]
mod packet_lines;
#[cfg(test)]
mod parts;
#[cfg(test)]
mod places;
#[cfg(test)]
mod regular;
#[cfg(test)]
mod reports;
#[cfg(test)]
mod tap_texts;
