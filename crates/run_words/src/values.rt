//! How a processor, a queue, a filter, a set, a flow count and a socket size are written as 64-bit
//! words, and what a word means that may be any number. 0 is a word to which nothing was written.
ghost use Rattle.std.specs.Prelude.{◌≡◌, ◌<◌, ◌≤◌, ℕ, IfSome, true};
ghost use Rattle.steer_base.specs.Sets.{has};
ghost use Rattle.steer_base.specs.declared.limits.TheConstants.{MAX_FLOW_COUNT, MAX_SOCKET_SIZE};
ghost use Rattle.run_words.specs.Values as values;

use steer_base::{Cpu, CpuMask, Filter, MAX_FLOW_COUNT, MAX_SOCKET_SIZE, RxQueue};

/// The weight of the processor in the word of a filter; there are at most 16 receive queues.
pub const CPU_WEIGHT: u64 = 16;

/// The weight of the mark in the word of a filter; there are at most 32 processors.
pub const MARK_WEIGHT: u64 = 512;

/// The word that says that all packets have arrived.
pub const DONE: u64 = 1;

/// The word that says that the poller of a packet has chosen its processor.
pub const STEERED: u64 = 1;

/// The word of a processor or of a receive queue: its number and one more.
pub fn place_word(place: u8) -> u64
    ensures { result ≡ values.place_word place }
{
    place as u64 + 1
}

/// The processor or receive queue of a word, if it is one of the first `count`.
pub fn place_in(word: u64, count: u8) -> Option<u8>
    ensures value { result ≡ values.place_in word count }
    ensures within { IfSome result (λ place. place < count) }
{
    if word == 0 || word > count as u64 {
        None
    } else {
        Some((word - 1) as u8)
    }
}

/// The word of a filter, with its receive queue below 16 and its processor below 32.
pub fn filter_word(filter: Filter) -> u64
    ensures { result ≡ values.filter_word filter }
{
    1 + filter.queue.0 as u64 + CPU_WEIGHT * filter.cpu.0 as u64 + MARK_WEIGHT * filter.mark as u64
}

/// The filter of a word, if its receive queue is one of the first `queues` and its processor one of
/// the first `cpus`.
pub fn filter_in(word: u64, queues: u8, cpus: u8) -> Option<Filter>
    ensures value { result ≡ values.filter_in word queues cpus }
    ensures queue { IfSome result (λ filter. filter.queue < queues) }
    ensures cpu { IfSome result (λ filter. filter.cpu < cpus) }
{
    if word == 0 {
        return None;
    }
    let rest = word - 1;
    let queue = (rest % CPU_WEIGHT) as u8;
    let cpu = (rest / CPU_WEIGHT % (MARK_WEIGHT / CPU_WEIGHT)) as u8;
    let mark = rest / MARK_WEIGHT;
    if queue >= queues || cpu >= cpus || mark >= 1 << 32 {
        return None;
    }
    Some(Filter {
        queue: RxQueue(queue),
        cpu: Cpu(cpu),
        mark: mark as u32,
    })
}

/// The word of a set of processors: bit c is processor c.
pub fn cpus_word(mask: CpuMask) -> u64
    ensures { result ≡ values.cpus_word mask }
{
    mask.0 as u64
}

/// The set of processors of a word, empty if it has one that is not one of the first `cpus`, of
/// which there are at most 32.
pub fn cpus_in(word: u64, cpus: u8) -> CpuMask
    requires { cpus ≤ 32 }
    ensures value { result ≡ values.cpus_in word cpus }
    ensures within { (cpu : ℕ) → has result cpu ≡ true → cpu < cpus }
{
    if word < 1u64 << cpus {
        CpuMask(word as u32)
    } else {
        CpuMask(0)
    }
}

/// The word of a set of receive queues: bit q is receive queue q.
pub fn queues_word(queues: u16) -> u64
    ensures { result ≡ values.queues_word queues }
{
    queues as u64
}

/// The set of receive queues of a word, empty if it has a queue that is not one of the first
/// `count`, of which there are at most 16.
pub fn queues_in(word: u64, count: u8) -> u16
    requires { count ≤ 16 }
    ensures { result ≡ values.queues_in word count }
{
    if word < 1u64 << count { word as u16 } else { 0 }
}

/// The word of a flow count and of the number of its changes so far, its generation.
pub fn flows_word(count: u32, generation: u32) -> u64
    ensures { result ≡ values.flows_word count generation }
{
    count as u64 + generation as u64 * (1 << 32)
}

/// The flow count of a word, 0 if it is above `MAX_FLOW_COUNT`.
pub fn flows_in(word: u64) -> u32
    ensures value { result ≡ values.flows_in word }
    ensures few { result ≤ MAX_FLOW_COUNT }
{
    let count = (word % (1 << 32)) as u32;
    if count <= MAX_FLOW_COUNT { count } else { 0 }
}

/// The word of a size of the socket flow table.
pub fn socket_size_word(size: u32) -> u64
    ensures { result ≡ values.socket_size_word size }
{
    size as u64
}

/// The size of the socket flow table of a word, 0 if it is above `MAX_SOCKET_SIZE`.
pub fn socket_size_in(word: u64) -> u32
    ensures value { result ≡ values.socket_size_in word }
    ensures few { result ≤ MAX_SOCKET_SIZE }
{
    if word <= MAX_SOCKET_SIZE as u64 {
        word as u32
    } else {
        0
    }
}

/// Whether a word says that all packets have arrived.
pub fn is_done(word: u64) -> bool
    ensures { result ≡ values.is_done word }
{
    word == DONE
}
