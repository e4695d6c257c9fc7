//! Counters of 32 bits that wrap, as the kernel's queue heads and tails, and sizes that are powers
//! of two.
ghost use Rattle.std.specs.Prelude.{ℕ, ◌≡◌, ◌<◌, ◌≤◌, ◌^◌};
ghost use Rattle.std.specs.Int.{IsPowerOfTwo};
ghost use Rattle.steer_base.specs.Counters.{has_reached, number, rounded_up};
ghost use Rattle.steer_base.specs.declared.counter.TheConstants.{MOST_PAST};
ghost use Rattle.steer_base.specs.declared.limits.TheConstants.{MAX_FLOW_COUNT, MAX_SOCKET_SIZE};

/// The most that `reached` is asked for: a filter goes once the head of its processor is ten times
/// the flow count past its tail, and a flow count is at most 32,768.
pub const MOST_PAST: u32 = 400_000;

/// The number that a counter shows after `count` steps, where it began with `start`. It wraps.
pub fn number_at(start: u32, count: u32) -> u32
    ensures { result ≡ number start count }
{
    start.wrapping_add(count)
}

/// Whether the counter `head` is at least `more` past `tail`, if the two are less than half
/// of the number range apart: the comparison by signed difference that the kernel makes of its
/// queue counters.
pub fn reached(head: u32, tail: u32, more: u32) -> bool
    requires { more ≤ MOST_PAST }
    ensures { result ≡ has_reached head tail more }
{
    let past = head.wrapping_sub(tail);
    past < 1 << 31 && past >= more
}

/// The least power of two that is at least `n`, and 0 for 0, as the kernel
/// rounds the sizes of its flow tables.
pub fn round_up(n: u32) -> u32
    requires { n ≤ MAX_SOCKET_SIZE }
    ensures value { result ≡ rounded_up n }
    ensures power { 0 < n → IsPowerOfTwo result }
    ensures least { (k : ℕ) → n ≤ 2 ^ k → result ≤ 2 ^ k }
    ensures enough { n ≤ result }
    ensures bounded { result ≤ MAX_SOCKET_SIZE }
    ensures receive_size { n ≤ MAX_FLOW_COUNT → result ≤ MAX_FLOW_COUNT }
{
    if n == 0 { 0 } else { n.next_power_of_two() }
}
