//! The end of a run: its threads, and then its sweep.
ghost use Rattle.std.specs.Prelude.{◌≡◌, ◌≤◌, [], length, true};
ghost use Rattle.steer_model.specs.Good.Inputs.{Input};
ghost use Rattle.steer_model.specs.State.Ranges.{AreOfFlows};
ghost use Rattle.run_crew.specs.CountLaws.{IsFull};
ghost use Rattle.run_crew.specs.Finished.{finished_by_all};
ghost use Rattle.run_crew.specs.Sweeps.{GoOn, all_free};
ghost use Rattle.workers.specs.Overs.{IsBack, IsOver};
ghost use Rattle.workers.specs.Posts.{ArePosts, HaveStayed};
ghost use Rattle.workers.specs.Starts.{IsStart};
ghost use Rattle.workers.specs.Threads.{CrewCan, workers_stage};

use crate::board_laws::boards_have_their_settings;
use crate::posts::{Posts, dismiss, man};
use crate::start::Run;
use crate::threads::run_beside;
use hop_board::Board;
use plan_reader::Plan;
use run_crew::{Seated, crews_go_on, crews_learn_arrivals, finished_crews_are_full, sweep};
use run_words::Pace;
use run_workers::{Stage, loaded_counts_hold};
use std::mem;
use std::sync::Wait;
use std::thread::Threads;

/// Runs all threads of a run, and takes them back. No worker knows the arrivals yet.
pub(crate) fn run_all<R: Threads + Wait + Sync, P: Pace + Sync>(
    rt: &R,
    plan: &Plan,
    run: Run,
    posts: Posts,
    pace: &P,
) -> Run
    ghost i: { Input }
    requires plan { i.plan ≡ plan.now }
    requires flows { AreOfFlows i.packets }
    requires start { IsStart i.plan i.packets i.cut run }
    requires posts { ArePosts i.plan.workers posts }
    ensures back { IsBack i result result.wire.wire.arrivals.items }
    ensures late { result.stage.late.items ≡ [] }
    ensures free { all_free result.crew.items ≡ true }
    ensures stayed { HaveStayed result.crew.items (length i.packets) }
{
    crews_go_on();
    boards_have_their_settings();
    loaded_counts_hold();
    let Run {
        stage,
        crew,
        wire,
        controller,
    } = run;
    let Posts {
        tally,
        counters,
        posts,
        crew: back,
        seats,
    } = posts;
    let posts = man(crew, counters, posts);
    let (wire, (posts, controller)) = run_beside(
        rt, &stage, plan, &tally, posts, wire, controller, pace,
    );
    let (crew, seats) = dismiss(posts, back, seats);
    tally.close(seats);
    Run {
        stage,
        crew,
        wire,
        controller,
    }
}

/// Ends a run, whose threads have been taken back, by the sweep on this thread: all workers know
/// all arrivals now, and have turns until each packet is on the port or was dropped. If they have
/// finished all packets, none has a turn.
pub(crate) fn sweep_all<R: Wait>(rt: &R, mut run: Run) -> Run
    ghost i: { Input }
    requires back { IsBack i run run.wire.wire.arrivals.items }
    requires late { run.stage.late.items ≡ [] }
    ensures over { IsOver i result }
    ensures rests { all_free run.crew.items ≡ true
        → length i.packets ≤ finished_by_all run.crew.items
        → result.crew.items ≡ run.crew.items }
{
    crews_go_on();
    crews_learn_arrivals();
    finished_crews_are_full();
    mem::swap(&mut run.stage.late, &mut run.wire.wire.arrivals);
    sweep_crew(rt, &run.stage, &mut run.crew);
    run
}

// Sweeps with these workers.
fn sweep_crew<R: Wait>(rt: &R, stage: &Stage<Board>, crew: &mut Vec<Seated>)
    requires can { CrewCan (workers_stage stage.now) crew.old.items }
    ensures goes { GoOn (workers_stage stage.now) crew.old.items crew.new.items }
    ensures free { all_free crew.new.items ≡ true }
    ensures full { IsFull crew.new.items (length stage.now.shared.given.homes)
        stage.now.shared.given.txs (length stage.now.shared.given.packets) }
    ensures rests { IsFull crew.old.items (length stage.now.shared.given.homes)
        stage.now.shared.given.txs (length stage.now.shared.given.packets)
        → all_free crew.old.items ≡ true → crew.new.items ≡ crew.old.items }
{
    sweep(rt, stage, crew.as_mut_slice());
}
