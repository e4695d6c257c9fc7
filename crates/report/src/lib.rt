//! Writes the report of a history to a sink, line by line.
#![tactic(auto)]

mod commands;
mod fields;
mod fits;
mod laws;
mod line;
mod numbers;
mod packets;
mod place;
mod sections;
mod sums;
mod whole;

pub use fits::texts_fit;
pub use laws::{a_report_has_one_history, a_report_has_rows, rows_are_found_in_their_text};
pub use line::LineBuf;
pub use numbers::hex8;
pub use whole::render;
