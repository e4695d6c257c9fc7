//! The desired processor of a packet, and the filter that its choice asks for.
ghost use Rattle.std.specs.Prelude.{◌≡◌, ◌≤◌, length};
ghost use Rattle.steer_base.specs.Choices.{desired_cpu as desired_with};
ghost use Rattle.steer_model.specs.Steps.Pollers.{filter_for as filter_after};
ghost use Rattle.steer_model.specs.Steps.Pollers.{socket_seen as seen_in};

use accel_filter::filter_written;
use sock_flow_table::SockTable;
use steer_base::{Choice, Cpu, CpuMask, Filter};

/// The desired processor of a packet: if it has a class, the one seen in the socket flow table if
/// that is online; otherwise the RPS choice.
pub fn desired_cpu(class: Option<u32>, want: Option<u8>, online: CpuMask, rps: u8) -> u8
    ensures { result ≡ desired_with class want online rps }
{
    match (class, want) {
        (Some(_), Some(cpu)) if online.has(cpu) => cpu,
        _ => rps,
    }
}

/// The processor that a packet with this class and hash finds in the socket flow table. It is not
/// looked up without a class or without a hash.
pub fn socket_seen(socket: &SockTable, class: Option<u32>, hash: Option<u32>) -> Option<u8>
    ensures { result ≡ seen_in socket.now class hash }
{
    match (class, hash) {
        (Some(_), Some(hash)) => match socket.desired(hash) {
            Some(cpu) => Some(cpu.0),
            None => None,
        },
        _ => None,
    }
}

/// The filter that a poller asks for after its packet was accepted at a position by this choice:
/// one to the lowest queue whose home is the chosen processor, if there are filters and the choice
/// moved its class.
pub fn filter_for(homes: &[Cpu], filters: u32, choice: Choice, position: u32) -> Option<Filter>
    requires { length homes.now ≤ 32 }
    ensures { result ≡ filter_after homes.now filters choice position }
{
    if filters == 0 {
        return None;
    }
    filter_written(homes, choice.why, Cpu(choice.lane), position)
}
