//! Reads rules that steer packets by addresses and ports from JSON text, and finds the first rule
//! that matches a flow.
#![tactic(auto)]

mod classifier;
mod fields;
mod folding;
mod group;
mod kind;
mod laws;
mod member;
mod reading;
mod rule;
mod rules;
mod rules_text;
mod search;
mod sieve;

pub use classifier::Classifier;
pub use folding::fold;
pub use laws::{a_match_is_the_first, both_directions_fold_alike};
pub use rule::{Rule, RuleKind};
pub use rules::{MAX_RULES, Rules};
pub use rules_text::read_rules;
