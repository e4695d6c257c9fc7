//! Tests of what decides whether a report is one, and which clause of a good history fails.
#![tactic(auto)]

#[cfg(test)]
mod clauses;
#[cfg(test)]
mod equal;
#[cfg(test)]
mod histories;
#[cfg(test)]
mod reports;
