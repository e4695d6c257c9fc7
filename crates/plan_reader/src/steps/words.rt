//! The words of steps, and the steps that they name.
ghost use Rattle.std.specs.Prelude.{◌≡◌, ◌<◌, true, bytes_eq, IfOk, IfSome};
ghost use Rattle.plan_reader.specs.Ranges.{step_is_within};
ghost use Rattle.plan_reader.specs.declared.settings.sizes.Sizes.{Sizes};
ghost use Rattle.plan_reader.specs.Words.{bare_step, queue_step, cpu_step, app_step, tx_step};

use crate::faults::cause::Cause;
use steer_base::{Command, Cpu, Step};

/// Whether the bytes of a word spell this name.
pub fn is(word: &[u8], name: &str) -> bool
    ensures { result ≡ bytes_eq word.now name.now }
{
    word == name.as_bytes()
}

/// The step of a word without arguments.
#[tactic(auto, unfolding(crate::specs::Words::bare_step))]
pub fn bare_step(word: &[u8]) -> Result<Step, Cause>
    ensures step { result ≡ bare_step word.now }
    ensures within { (sizes : Sizes) → IfOk result (λ step. step_is_within sizes step ≡ true) }
{
    if is(word, "arrive") {
        Ok(Step::Arrive)
    } else if is(word, "sweep") {
        Ok(Step::Sweep)
    } else if is(word, "expire") {
        Ok(Step::Give(Command::Expire))
    } else {
        Err(Cause::WrongKind)
    }
}

/// The step of a word with a receive queue; `None` if no step has this word with a queue.
#[tactic(auto, unfolding(crate::specs::Words::queue_step))]
pub fn queue_step(word: &[u8], queue: u8) -> Option<Step>
    ensures step { result ≡ queue_step word.now queue }
    ensures within { (sizes : Sizes) → queue < sizes.queues
        → IfSome result (λ step. step_is_within sizes step ≡ true) }
{
    if is(word, "poll") {
        Some(Step::Poll(queue))
    } else if is(word, "take") {
        Some(Step::Take(queue))
    } else if is(word, "enter") {
        Some(Step::Enter(queue))
    } else if is(word, "look") {
        Some(Step::Look(queue))
    } else if is(word, "weigh") {
        Some(Step::Weigh(queue))
    } else if is(word, "put") {
        Some(Step::Put(queue))
    } else if is(word, "ask") {
        Some(Step::Ask(queue))
    } else if is(word, "leave") {
        Some(Step::Leave(queue))
    } else {
        None
    }
}

/// The step of a word with a processor; `None` if no step has this word with a processor.
#[tactic(auto, unfolding(crate::specs::Words::cpu_step))]
pub fn cpu_step(word: &[u8], cpu: u8) -> Option<Step>
    ensures step { result ≡ cpu_step word.now cpu }
    ensures within { (sizes : Sizes) → cpu < sizes.cpus
        → IfSome result (λ step. step_is_within sizes step ≡ true) }
{
    if is(word, "drain") {
        Some(Step::Drain(cpu))
    } else if is(word, "pull") {
        Some(Step::Pull(cpu))
    } else if is(word, "deliver") {
        Some(Step::Deliver(cpu))
    } else if is(word, "retire") {
        Some(Step::Retire(cpu))
    } else if is(word, "offline") {
        Some(Step::Give(Command::Offline(Cpu(cpu))))
    } else if is(word, "online") {
        Some(Step::Give(Command::Online(Cpu(cpu))))
    } else {
        None
    }
}

/// The step of a word with an application; `None` if no step has this word with an application.
#[tactic(auto, unfolding(crate::specs::Words::app_step))]
pub fn app_step(word: &[u8], app: u8) -> Option<Step>
    ensures step { result ≡ app_step word.now app }
    ensures within { (sizes : Sizes) → app < sizes.apps
        → IfSome result (λ step. step_is_within sizes step ≡ true) }
{
    if is(word, "serve") {
        Some(Step::Serve(app))
    } else if is(word, "reply") {
        Some(Step::Reply(app))
    } else if is(word, "send") {
        Some(Step::Send(app))
    } else if is(word, "tenter") {
        Some(Step::TEnter(app))
    } else if is(word, "tleave") {
        Some(Step::TLeave(app))
    } else if is(word, "tweigh") {
        Some(Step::TWeigh(app))
    } else if is(word, "tput") {
        Some(Step::TPut(app))
    } else {
        None
    }
}

/// The step of a word with a transmit queue; `None` if no step has this word with such a queue.
#[tactic(auto, unfolding(crate::specs::Words::tx_step))]
pub fn tx_step(word: &[u8], tx: u8) -> Option<Step>
    ensures step { result ≡ tx_step word.now tx }
    ensures within { (sizes : Sizes) → tx < sizes.tx
        → IfSome result (λ step. step_is_within sizes step ≡ true) }
{
    if is(word, "ship") {
        Some(Step::Ship(tx))
    } else if is(word, "tpull") {
        Some(Step::TPull(tx))
    } else if is(word, "tdeliver") {
        Some(Step::TDeliver(tx))
    } else if is(word, "tretire") {
        Some(Step::TRetire(tx))
    } else {
        None
    }
}
