//! The counts by which the sweep of a run sees that it has ended.
ghost use Rattle.std.specs.Prelude.{◌≡◌, ◌≤◌, ◌<◌, ◌*◌, length};
ghost use Rattle.hop_rule.specs.Events.{sum_below};
ghost use Rattle.run_crew.specs.Counts.{counted};

use crate::seated::Seated;

/// What workers count of each of their actors.
#[derive(Clone, Copy)]
pub(crate) enum Count {
    /// The packets that a receive queue has chosen for.
    Chosen,
    /// Those of them that were accepted.
    Accepted,
    /// The packets that a transmit queue has retired.
    Retired,
}

/// The sum of this count over the actors whose numbers are below `end`.
pub(crate) fn count_below(crew: &[Seated], count: Count, end: u8) -> u64
    requires some { 0 < length crew.now }
    ensures value { result ≡ sum_below (counted count crew.now) end }
    ensures few { result ≤ end * 4294967295 }
{
    let mut sum = 0;
    for actor in 0..end {
        sum += count_at(crew, count, actor as usize) as u64;
    }
    sum
}

// This count of one actor; 0 if no worker plays it.
fn count_at(crew: &[Seated], count: Count, actor: usize) -> u32
    requires some { 0 < length crew.now }
    ensures { result ≡ counted count crew.now actor }
{
    let worker = &crew[actor % crew.len()].worker;
    let place = actor / crew.len();
    match count {
        Count::Chosen => match worker.pollers.as_slice().get(place) {
            Some(poller) => poller.choices.len(),
            None => 0,
        },
        Count::Accepted => match worker.pollers.as_slice().get(place) {
            Some(poller) => poller.accepted,
            None => 0,
        },
        Count::Retired => match worker.ships.as_slice().get(place) {
            Some(ship) => ship.retired,
            None => 0,
        },
    }
}
