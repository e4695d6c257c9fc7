//! Steps of seeded words: one for each remainder by 16, and of the last one for each of its four
//! events.
use crate::pieces::same;
use plan_reader::{Plan, read_plan};
use std::alloc::Global;
use std::process::Abort;
use std::test::Fail;
use steer_base::Step;

/// A plan of 13 queues, 31 processors, 5 applications and 3 transmit queues, up to its steps.
const SETTINGS: &[u8] = br#"{"cpus":31,"sock":0,"apps":[0,0,0,0,0],
"tx":[{"cpus":[],"queues":[]},{"cpus":[],"queues":[]},{"cpus":[],"queues":[]}],"queues":[
{"home":0,"mask":[],"flows":0},{"home":0,"mask":[],"flows":0},{"home":0,"mask":[],"flows":0},
{"home":0,"mask":[],"flows":0},{"home":0,"mask":[],"flows":0},{"home":0,"mask":[],"flows":0},
{"home":0,"mask":[],"flows":0},{"home":0,"mask":[],"flows":0},{"home":0,"mask":[],"flows":0},
{"home":0,"mask":[],"flows":0},{"home":0,"mask":[],"flows":0},{"home":0,"mask":[],"flows":0},
{"home":0,"mask":[],"flows":0}],"steps":"#;

/// The plan with these steps.
fn plan_of(alloc: Global, steps: &[u8]) -> Result<Plan, Fail> {
    let mut text = SETTINGS.to_vec(alloc)?;
    text.extend_from_slice(steps)?;
    text.push(b'}')?;
    read_plan(alloc, &text).map_err(|_| Fail::new("a fault"))
}

/// Asserts that the plan begins with these steps.
fn begins_with(rt: &impl Abort, plan: &Plan, wanted: &[Step]) {
    assert!(rt; plan.step_count() as usize > wanted.len());
    for (i, step) in wanted.iter().enumerate() {
        same(rt, &plan.step_at(i as u32), step, i);
    }
}

const OF_14233: [Step; 10] = [
    Step::Poll(6),
    Step::Poll(12),
    Step::Poll(2),
    Step::Arrive,
    Step::Arrive,
    Step::Arrive,
    Step::Drain(9),
    Step::Poll(1),
    Step::Arrive,
    Step::Arrive,
];

// The words of the seed 14233, from the generator's published formulas: d5678145, 42e36637,
// e998ac66, 81a4a564, b0954aa1, 6eed4970, 26231c39, ea4eb6e8, 2b414d63, 75db7592. The last digit is
// the kind, from 0 to 9, and the others are the number of the actor.
#[test]
fn arrivals_polls_and_a_drain_of_a_seed(rt: HostRuntime) -> Result<(), Fail> {
    let plan = plan_of(rt.alloc(), br#"{"seed":14233,"count":10}"#)?;
    begins_with(&rt, &plan, &OF_14233);
    Ok(())
}

const OF_58780751: [Step; 9] = [
    Step::Serve(1),
    Step::Take(4),
    Step::Look(2),
    Step::Drain(24),
    Step::Serve(2),
    Step::Drain(20),
    Step::Enter(6),
    Step::Pull(17),
    Step::Ship(1),
];

// The words of the seed 58780751: faa3ddcd, e29c434f, 82a2fc2f, 92e9bfda, eae9442c, f3c41e1b,
// 3d06f25f, f99bdb7f, c3029c5e. Their kinds are a to f; of the four with f, the lowest two bits of
// the other digits are 0, 2, 1 and 3.
#[test]
fn drains_serves_and_single_events_of_a_seed(rt: HostRuntime) -> Result<(), Fail> {
    let plan = plan_of(rt.alloc(), br#"{"seed":58780751,"count":9}"#)?;
    begins_with(&rt, &plan, &OF_58780751);
    Ok(())
}
