//! The values that a plan begins with.
ghost use Rattle.std.specs.Prelude.{◌≡◌, ◌<◌, ◌≤◌, IfOk, length, map};
ghost use Rattle.std.specs.List.{All};
ghost use Rattle.steer_base.specs.Counters.{rounded_up};
ghost use Rattle.steer_base.specs.declared.limits.TheConstants.{MAX_FLOW_COUNT};
ghost use Rattle.run_words.specs.First as first;
ghost use Rattle.run_words.specs.Values as values;

use crate::hint_word::HintWord;
use crate::values::{cpus_word, flows_word, place_word, queues_word, socket_size_word};
use plan_reader::{Plan, QueuePlan};
use std::alloc::Global;
use steer_base::{CpuMask, OutOfMemory, round_up};

/// The first value of a word: the redirection table and the processors of the applications are the
/// plan's, and nothing is written to the others.
pub fn first_hint(plan: &Plan, word: HintWord) -> u64
    ensures { result ≡ first.first_hint plan.now word }
{
    match word {
        HintWord::Redirection(entry) => match plan.reta.as_slice().get(entry as usize) {
            Some(queue) => place_word(queue.0),
            None => 0,
        },
        HintWord::Stand(app) => match plan.apps.as_slice().get(app.0 as usize) {
            Some(cpu) => place_word(cpu.0),
            None => 0,
        },
        _ => 0,
    }
}

/// The first values of the settings of the receive board, by their numbers, with all processors
/// online.
pub fn first_receive_settings(alloc: Global, plan: &Plan) -> Result<Vec<u64>, OutOfMemory>
    ensures { IfOk result (λ words. words.items ≡ first.first_receive_settings plan.now) }
{
    let queues = plan.queues.as_slice();
    let mut words: Vec<u64> = queues
        .iter()
        .map(|queue| cpus_word(queue.mask))
        .collect(alloc)?;
    words.extend_from_slice(&flow_words(alloc, queues)?)?;
    words.push(socket_size_word(round_up(plan.sock)))?;
    words.push(cpus_word(CpuMask::first_n(plan.cpus)))?;
    Ok(words)
}

/// The first values of the settings of the transmit board, by their numbers.
pub fn first_transmit_settings(alloc: Global, plan: &Plan) -> Result<Vec<u64>, OutOfMemory>
    ensures { IfOk result (λ words. words.items ≡ first.first_transmit_settings plan.now) }
{
    let queues = plan.tx.as_slice();
    let mut words: Vec<u64> = queues.iter().map(|tx| cpus_word(tx.cpus)).collect(alloc)?;
    let sets: Vec<u64> = queues
        .iter()
        .map(|tx| queues_word(tx.queues))
        .collect(alloc)?;
    words.extend_from_slice(&sets)?;
    Ok(words)
}

// The words of the flow counts of receive queues, none of them changed yet.
fn flow_words(alloc: Global, queues: &[QueuePlan]) -> Result<Vec<u64>, OutOfMemory>
    requires { All (λ queue. queue.flows ≤ MAX_FLOW_COUNT) queues.now }
    ensures { IfOk result (λ words.
        words.items ≡ map (λ queue. values.flows_word (rounded_up queue.flows) 0) queues.now) }
{
    let mut words = Vec::with_capacity(alloc, queues.len())?;
    for queue in queues {
        words.push(flows_word(round_up(queue.flows), 0))?;
    }
    Ok(words)
}
