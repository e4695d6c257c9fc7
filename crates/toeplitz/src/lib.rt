//! The Toeplitz hash of a flow, as network cards compute it to spread packets over their receive
//! queues.
#![tactic(auto)]

mod key;
mod kinds;
mod laws;
mod tabled_key;
mod words;

pub use key::{Key, VERIFICATION_KEY, verification_key};
pub use kinds::Kinds;
pub use laws::a_hash_needs_a_kind;
pub use tabled_key::TabledKey;
