//! The replay of a plan over the packets of a capture; what is shown of a history, up to the
//! written report; and the replay of generated input, of which two lines of sums are written.
#![tactic(auto)]

mod counts;
mod laws;
mod packets;
mod shown;
mod steps;
mod summary;

pub use counts::Counts;
pub use laws::{every_report_has_the_headline, every_run_has_the_headline};
pub use shown::Shown;
pub use steps::play;
pub use summary::Summary;
