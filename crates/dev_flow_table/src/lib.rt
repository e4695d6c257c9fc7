//! The flow table of a receive queue or application, and the rule by which a flow changes lane.
#![tactic(auto)]

mod laws;
mod list_laws;
mod rule;
mod table;
mod written;

pub use laws::{a_choice_leaves_other_classes, a_class_moves_by_three_conditions};
pub use list_laws::{
    a_class_walks_in_order, a_table_has_the_entries_of_the_lists,
    a_table_was_cleared_at_the_last_change,
};
pub use rule::{Wish, choose, entry_after};
pub use table::{DevTable, MAX_EXACT_CLASSES};
