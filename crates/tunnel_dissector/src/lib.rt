//! Finds the flow of the innermost packet of a frame, through IP in IP, GRE and VXLAN.
#![tactic(auto)]

mod dissect;
mod gre;
mod inner;
mod laws;
mod level;
mod place;
mod vxlan;
mod write;

pub use dissect::dissect_inner;
pub use inner::Inner;
pub use laws::a_tunnel_is_one_level_more;
pub use write::put_vxlan;
