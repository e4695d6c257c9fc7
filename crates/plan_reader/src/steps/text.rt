//! Reads the text of a step.
ghost use Rattle.std.specs.Prelude.{◌≡◌, ◌≤◌, true, IsSome, IfSome, IfOk};
ghost use Rattle.plan_reader.specs.Ranges.{step_is_within};
ghost use Rattle.plan_reader.specs.StepTexts.{number_step, pair_step, takes_set, set_step};
ghost use Rattle.plan_reader.specs.StepTexts.{two_arguments, some_arguments, step_of};
ghost use Rattle.plan_reader.specs.Texts.{set_of, before, after_byte};

use crate::faults::cause::Cause;
use crate::settings::sizes::Sizes;
use crate::steps::cut::cut;
use crate::steps::set::{bits_of, is_set};
use crate::steps::words::{app_step, bare_step, cpu_step, is, queue_step, tx_step};
use crate::values::number::{count_below, index_below, number_of};
use steer_base::{
    AppId, Command, Cpu, CpuMask, MAX_FLOW_COUNT, MAX_PACKETS, MAX_SOCKET_SIZE, RxQueue, Step,
    TxQueue,
};

/// The step of a word and a number.
#[tactic(auto, unfolding(crate::specs::StepTexts::number_step))]
fn number_step(sizes: Sizes, word: &[u8], number: u64) -> Result<Step, Cause>
    ensures step { result ≡ number_step sizes word.now number }
    ensures within { IfOk result (λ step. step_is_within sizes step ≡ true) }
{
    if queue_step(word, 0).is_some() {
        let queue = index_below(sizes.queues, number)?;
        queue_step(word, queue).ok_or(Cause::WrongKind)
    } else if cpu_step(word, 0).is_some() {
        let cpu = index_below(sizes.cpus, number)?;
        cpu_step(word, cpu).ok_or(Cause::WrongKind)
    } else if app_step(word, 0).is_some() {
        let app = index_below(sizes.apps, number)?;
        app_step(word, app).ok_or(Cause::WrongKind)
    } else if tx_step(word, 0).is_some() {
        let tx = index_below(sizes.tx, number)?;
        tx_step(word, tx).ok_or(Cause::WrongKind)
    } else if is(word, "record") {
        let flow = count_below(MAX_PACKETS as u32, number)?;
        Ok(Step::Record(flow))
    } else if is(word, "sock") {
        let size = count_below(MAX_SOCKET_SIZE + 1, number)?;
        Ok(Step::Give(Command::Sock(size)))
    } else {
        Err(Cause::WrongKind)
    }
}

/// The step of a word and two numbers.
#[tactic(auto, unfolding(crate::specs::StepTexts::pair_step))]
fn pair_step(sizes: Sizes, word: &[u8], first: u64, second: u64) -> Result<Step, Cause>
    ensures step { result ≡ pair_step sizes word.now first second }
    ensures within { IfOk result (λ step. step_is_within sizes step ≡ true) }
{
    if is(word, "flows") {
        let queue = index_below(sizes.queues, first)?;
        let count = count_below(MAX_FLOW_COUNT + 1, second)?;
        Ok(Step::Give(Command::Flows(RxQueue(queue), count)))
    } else if is(word, "reta") {
        let place = index_below(128, first)?;
        let queue = index_below(sizes.queues, second)?;
        Ok(Step::Give(Command::Reta(place, RxQueue(queue))))
    } else if is(word, "stand") {
        let app = index_below(sizes.apps, first)?;
        let cpu = index_below(sizes.cpus, second)?;
        Ok(Step::Give(Command::Stand(AppId(app), Cpu(cpu))))
    } else {
        Err(Cause::WrongKind)
    }
}

/// The step of a word, a number and a set, whose members must be below the number that the plan
/// has.
#[tactic(auto, unfolding(crate::specs::StepTexts::set_step))]
fn set_step(sizes: Sizes, word: &[u8], first: u64, second: &[u8]) -> Result<Step, Cause>
    requires cpus { sizes.cpus ≤ 32 }
    requires queues { sizes.queues ≤ 16 }
    requires set { IsSome (set_of second.now) }
    ensures step { IfSome (set_of second.now)
        (λ members. result ≡ set_step sizes word.now first members) }
    ensures within { IfOk result (λ step. step_is_within sizes step ≡ true) }
{
    if is(word, "mask") {
        let queue = index_below(sizes.queues, first)?;
        let cpus = bits_of(second, sizes.cpus)?;
        Ok(Step::Give(Command::Mask(RxQueue(queue), CpuMask(cpus))))
    } else if is(word, "xcpus") {
        let tx = index_below(sizes.tx, first)?;
        let cpus = bits_of(second, sizes.cpus)?;
        Ok(Step::Give(Command::XCpus(TxQueue(tx), CpuMask(cpus))))
    } else if is(word, "xqueues") {
        let tx = index_below(sizes.tx, first)?;
        let queues = bits_of(second, sizes.queues)?;
        Ok(Step::Give(Command::XQueues(TxQueue(tx), queues as u16)))
    } else {
        Err(Cause::WrongKind)
    }
}

/// Whether the second argument of the word is a set.
#[tactic(auto, unfolding(crate::specs::StepTexts::takes_set))]
fn takes_set(word: &[u8]) -> bool
    ensures { result ≡ takes_set word.now }
{
    is(word, "mask") || is(word, "xcpus") || is(word, "xqueues")
}

/// The step of a word and two arguments.
fn two_arguments(sizes: Sizes, word: &[u8], first: &[u8], second: &[u8]) -> Result<Step, Cause>
    requires cpus { sizes.cpus ≤ 32 }
    requires queues { sizes.queues ≤ 16 }
    ensures step { result ≡ two_arguments sizes word.now first.now second.now }
    ensures within { IfOk result (λ step. step_is_within sizes step ≡ true) }
{
    let number = number_of(first).ok_or(Cause::WrongKind)?;
    if takes_set(word) {
        if is_set(second) {
            set_step(sizes, word, number, second)
        } else {
            Err(Cause::WrongKind)
        }
    } else {
        let other = number_of(second).ok_or(Cause::WrongKind)?;
        pair_step(sizes, word, number, other)
    }
}

/// The step of a word and what follows the space after it.
fn some_arguments(sizes: Sizes, word: &[u8], rest: &[u8]) -> Result<Step, Cause>
    requires cpus { sizes.cpus ≤ 32 }
    requires queues { sizes.queues ≤ 16 }
    ensures step { result ≡ some_arguments sizes word.now (before 32 rest.now)
        (after_byte 32 rest.now) }
    ensures within { IfOk result (λ step. step_is_within sizes step ≡ true) }
{
    let (first, second) = cut(rest, b' ');
    if let Some(second) = second {
        return two_arguments(sizes, word, first, second);
    }
    let number = number_of(first).ok_or(Cause::WrongKind)?;
    number_step(sizes, word, number)
}

/// The step of a text.
#[tactic(auto, unfolding(crate::specs::StepTexts::step_of))]
pub fn step_of(sizes: Sizes, text: &[u8]) -> Result<Step, Cause>
    requires cpus { sizes.cpus ≤ 32 }
    requires queues { sizes.queues ≤ 16 }
    ensures step { result ≡ step_of sizes text.now }
    ensures within { IfOk result (λ step. step_is_within sizes step ≡ true) }
{
    let (word, rest) = cut(text, b' ');
    match rest {
        Some(rest) => some_arguments(sizes, word, rest),
        None => bare_step(word),
    }
}
