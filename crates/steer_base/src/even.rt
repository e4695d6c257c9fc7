//! The redirection table by which queues get its entries in turn.
ghost use Rattle.std.specs.Prelude.{◌≡◌, ◌<◌, ◌≤◌, All};
ghost use Rattle.steer_base.specs.Arrivals.{even_entries as entries_of};

use crate::ids::RxQueue;

/// The entries of the redirection table by which so many queues get them in turn: entry i has queue
/// `i mod queues` (Intel 82599 datasheet, redirection table of 128 entries).
pub fn even_entries(queues: u8) -> [RxQueue; 128]
    requires { 1 ≤ queues }
    ensures value { result ≡ entries_of queues }
    ensures within { All (λ queue. queue < queues) result }
{
    let mut entries = [RxQueue(0); 128];
    for i in 0..128u8 {
        entries[usize::from(i)] = RxQueue(i % queues);
    }
    entries
}
