//! A run with threads, from a plan and packets to its history.
ghost use Rattle.std.specs.Prelude.{◌≡◌, ◌≤◌, IfOk, length};
ghost use Rattle.steer_base.specs.declared.limits.TheConstants.{MAX_PACKETS};
ghost use Rattle.steer_model.specs.Good.GoodHistory.{Good};
ghost use Rattle.steer_model.specs.Good.Inputs.{Input};
ghost use Rattle.steer_model.specs.State.Ranges.{AreOfFlows};
ghost use Rattle.run_coupling.specs.Coupling.Runs.{IsRun};
ghost use Rattle.run_crew.specs.RunLaws.{RunEnds};
ghost use Rattle.workers.specs.Posts.{ArePosts};
ghost use Rattle.workers.specs.Starts.{IsStart};
ghost use Rattle.workers.specs.Spares.{IsSpare};

use crate::closing::close;
use crate::ends::{run_all, sweep_all};
use crate::posts::Posts;
use crate::spare::Spare;
use crate::start::Run;
use history::History;
use plan_reader::Plan;
use run_crew::ended_runs_are_runs;
use run_goodness::a_run_is_good;
use run_words::{Extent, Pace};
use std::alloc::Global;
use std::sync::Wait;
use std::thread::Threads;
use steer_base::{OutOfMemory, Packet};

/// Runs a plan on the packets of a capture with threads, and returns the history of the run: runs
/// the wire, the plan's workers and the controller concurrently, then sweeps on this thread until
/// every packet that was not dropped has left by the port. `cut` is the length of the capture's
/// cut record in bytes, if it has one.
///
/// `pace` is called by worker w with number w before each of its turns, by the wire with the number
/// of workers before each arrival, and by the controller with that number plus 1 before each try of
/// a command and once behind the last; with how often it was called, counted from 1. Before all of
/// these it is told the extent of the run. It decides nothing.
///
/// Allocates all memory before the threads start; the only error is out of memory.
pub fn run_threads<R: Threads + Wait + Sync, P: Pace + Sync>(
    rt: &R,
    alloc: Global,
    plan: &Plan,
    packets: &[Packet],
    cut: Option<u32>,
    pace: &P,
) -> Result<History, OutOfMemory>
    requires few { length packets.now ≤ MAX_PACKETS }
    requires flows { AreOfFlows packets.now }
    ensures run { IfOk result (IsRun (record {
      plan = plan.now;
      packets = packets.now;
      cut = cut;
    })) }
    ensures good { IfOk result (Good (record {
      plan = plan.now;
      packets = packets.now;
      cut = cut;
    })) }
{
    ended_runs_are_runs();
    a_run_is_good();
    let spare = Spare::make(alloc, plan)?;
    let posts = Posts::make(alloc, plan.workers)?;
    let run = Run::make(alloc, plan, packets, cut)?;
    announce(plan, packets, pace);
    Ok(run_to_the_end(rt, plan, run, posts, spare, pace))
}

// Tells the pace the extent of a run.
fn announce<P: Pace>(plan: &Plan, packets: &[Packet], pace: &P) {
    pace.begins(Extent {
        workers: plan.workers,
        packets: packets.len(),
        queues: plan.queues.len(),
        commands: plan.commands().len(),
    });
}

// Runs what a run begins with to its end.
fn run_to_the_end<R: Threads + Wait + Sync, P: Pace + Sync>(
    rt: &R,
    plan: &Plan,
    run: Run,
    posts: Posts,
    spare: Spare,
    pace: &P,
) -> History
    ghost i: { Input }
    requires plan { i.plan ≡ plan.now }
    requires flows { AreOfFlows i.packets }
    requires start { IsStart i.plan i.packets i.cut run }
    requires posts { ArePosts i.plan.workers posts }
    requires spare { IsSpare (length plan.now.queues) (length plan.now.apps) plan.now.workers
        spare }
    ensures { RunEnds i result }
{
    let run = run_all(rt, plan, run, posts, pace);
    let run = sweep_all(rt, run);
    close(plan, run, spare)
}
