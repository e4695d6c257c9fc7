//! The history of a run as lists, the place of each packet, and the lines that a report shows.
#![tactic(auto)]

mod arrival;
mod commanded;
mod history;
mod known;
mod lane_list;
mod laws;
mod lines;
mod packet_line;
mod place;
mod reply_line;
mod sent;
mod sock_write;

pub use arrival::Arrival;
pub use commanded::Commanded;
pub use history::History;
pub use known::Known;
pub use known::counted::Counted;
pub use known::index::Index;
pub use known::places::Places;
pub use lane_list::LaneList;
pub use laws::{
    a_packet_has_one_place, few_lanes_are_in_reach, histories_are_found_again, lines_fit,
};
pub use lines::Lines;
pub use lines::in_order::{PacketLines, ReplyLines};
pub use packet_line::{PacketLine, Via};
pub use place::Place;
pub use reply_line::ReplyLine;
pub use sent::Sent;
pub use sock_write::SockWrite;
