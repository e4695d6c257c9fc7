//! Commands of every kind while packets are on their way.
use crate::captures::generated;
use crate::counts::all_came_through;
use crate::holds::{Hold, Holding, Thread, Until};
use crate::runs::ran;
use history::Commanded;
use plan_reader::read_plan;
use std::test::Fail;
use steer_base::{Answer, Command, Idle};

const PLAN: &[u8] = br#"{"cpus":8,"queues":[{"home":0,"mask":[1,2,3,4],"flows":64},
    {"home":1,"mask":[1,2,3,4],"flows":64}],"sock":64,"filters":64,"apps":[2,3],
    "tx":[{"cpus":[],"queues":[]},{"cpus":[],"queues":[]}],"workers":3,"tries":4,
    "steps":["reta 5 1","mask 0 2,3","stand 0 4","flows 1 32","sock 128","offline 6","online 6",
    "xcpus 0 2,3","xqueues 1 0,1","expire","mask 1 1,5","stand 1 5","expire"]}"#;

// Three tries are made between each fifty packets, from the hundredth on.
const BY_TURNS: [Hold; 6] = [
    (Thread::Controller, 1, Until::Called(Thread::Wire, 100)),
    (Thread::Wire, 150, Until::Called(Thread::Controller, 4)),
    (Thread::Controller, 4, Until::Called(Thread::Wire, 200)),
    (Thread::Wire, 200, Until::Called(Thread::Controller, 7)),
    (Thread::Controller, 7, Until::Called(Thread::Wire, 250)),
    (Thread::Wire, 250, Until::Called(Thread::Controller, 10)),
];

// What a journal has behind the tries of a command, of which there are at most so many: each but
// the last found the machine busy, and the last did only if no more were left. Nothing if other
// entries come first. A processor that could not go offline is online when it is to come online.
fn behind(journal: &[Commanded], command: Command, most: u32) -> Option<&[Commanded]> {
    for (i, entry) in journal.iter().enumerate() {
        if entry.command != command {
            return None;
        }
        match entry.answer {
            Answer::Done | Answer::Expired(_) | Answer::Idle(Idle::AlreadyOnline) => {
                return journal.get(i + 1..);
            }
            Answer::Busy(_) if i + 1 == most as usize => return journal.get(i + 1..),
            Answer::Busy(_) => {}
            _ => return None,
        }
    }
    None
}

// Whether a journal has the tries of these commands, in their order, and nothing else.
fn are_given(commands: &[Command], most: u32, journal: &[Commanded]) -> bool {
    let mut left = journal;
    for command in commands {
        match behind(left, *command, most) {
            Some(rest) => left = rest,
            None => return false,
        }
    }
    left.is_empty()
}

#[test]
fn commands_are_given_among_packets(rt: HostRuntime) -> Result<(), Fail> {
    let alloc = rt.alloc();
    let plan = read_plan(alloc, PLAN)?;
    let packets = generated(alloc, &plan, 300, 16)?;
    let pace = Holding::make(&BY_TURNS, plan.workers);
    let history = ran(&rt, alloc, &plan, &packets, &pace)?;
    let journal = history.commands.as_slice();
    assert!(rt; (plan.commands().len(), packets.len()) == (13, 300));
    assert!(rt;
        are_given(plan.commands(), plan.tries, journal),
        "{journal:?}"
    );
    all_came_through(&rt, &history, packets.len());
    Ok(())
}
