//! The socket flow table of RFS: for each entry, the processor on which a flow's reader last ran.
#![tactic(auto)]

mod laws;
mod noted;
mod table;

pub use laws::the_last_note_is_found;
pub use table::SockTable;
