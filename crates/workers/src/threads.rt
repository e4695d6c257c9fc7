//! The wire, the workers and the controller, each in a thread of its own where one can be made.
ghost use Rattle.std.specs.Thread.{IsSync};
ghost use Rattle.workers.specs.Posts.{CanBeManned, HasWorked, HaveWorked, IsPosted};
ghost use Rattle.workers.specs.Threads.{ControllerCan, ControllerRan, WireCan, WireRan};
ghost use Rattle.workers.specs.Threads.{commands_stage, workers_stage};

use crate::posts::Post;
use crate::start::{SeatedController, SeatedWire};
use hop_board::Board;
use plan_reader::Plan;
use run_words::Pace;
use run_workers::{Stage, Tally};
use std::sync::Wait;
use std::thread::{Threads, for_each_mut, join};

// Lets a worker work at its post.
fn work_at<R: Wait, P: Pace>(rt: &R, stage: &Stage<Board>, tally: &Tally, post: &mut Post, pace: &P)
    requires { IsPosted (workers_stage stage.now) tally.now post.old }
    ensures { HasWorked (workers_stage stage.now) tally.now post.old post.new }
{
    let seats = &mut post.seated.seats;
    let counter = &mut post.counter;
    post.seated
        .worker
        .work(rt, stage, seats, tally, counter, pace);
}

// Runs all workers beside each other, at their posts.
fn run_workers<R: Threads + Wait + Sync, P: Pace + Sync>(
    rt: &R,
    stage: &Stage<Board>,
    tally: &Tally,
    mut posts: Vec<Post>,
    pace: &P,
) -> Vec<Post>
    requires can { CanBeManned (workers_stage stage.now) tally.now posts.items }
    ensures { HaveWorked (workers_stage stage.now) tally.now posts.items result.items }
{
    let threads = posts.len();
    for_each_mut(
        rt,
        posts.as_mut_slice(),
        threads,
        &|_: usize, post: &mut Post|
            requires { IsPosted (workers_stage stage.now) tally.now post.now }
            ensures { HasWorked (workers_stage stage.entry.now) tally.entry.now post.entry.now
                post.exit.now }
        {
            work_at(rt, stage, tally, post, pace);
        },
    );
    posts
}

// Runs the controller.
fn run_controller<P: Pace>(
    stage: &Stage<Board>,
    plan: &Plan,
    mut controller: SeatedController,
    pace: &P,
) -> SeatedController
    requires can { ControllerCan plan.now (commands_stage stage.now) controller }
    ensures { ControllerRan plan.now (commands_stage stage.now) controller result }
{
    let Stage { shared, rx, tx, .. } = stage;
    let number = plan.workers + 1;
    let seats = &mut controller.seats;
    controller
        .controller
        .run(plan, shared, rx, tx, seats, pace, number);
    controller
}

// Runs the wire.
fn run_wire<P: Pace>(stage: &Stage<Board>, plan: &Plan, mut own: SeatedWire, pace: &P) -> SeatedWire
    requires can { WireCan stage.now.shared own }
    ensures { WireRan stage.now.shared own result }
{
    let number = plan.workers;
    own.wire.run(&stage.shared, &mut own.seat, pace, number);
    own
}

// Runs the workers and the controller concurrently.
fn run_with_controller<R: Threads + Wait + Sync, P: Pace + Sync>(
    rt: &R,
    stage: &Stage<Board>,
    plan: &Plan,
    tally: &Tally,
    posts: Vec<Post>,
    controller: SeatedController,
    pace: &P,
) -> (Vec<Post>, SeatedController)
    requires posts { CanBeManned (workers_stage stage.now) tally.now posts.items }
    requires controller { ControllerCan plan.now (commands_stage stage.now) controller }
    ensures posts { HaveWorked (workers_stage stage.now) tally.now posts.items result.0.items }
    ensures controller { ControllerRan plan.now (commands_stage stage.now) controller result.1 }
{
    join(
        rt,
        move || -> Vec<Post>
            requires { IsSync R.row
                × CanBeManned (workers_stage stage.now) tally.now posts.items }
            ensures { HaveWorked (workers_stage stage.entry.now) tally.entry.now posts.items
                result.items }
        { run_workers(rt, stage, tally, posts, pace) },
        move || -> SeatedController
            requires { ControllerCan plan.now (commands_stage stage.now) controller }
            ensures { ControllerRan plan.entry.now (commands_stage stage.entry.now) controller
                result }
        { run_controller(stage, plan, controller, pace) },
    )
}

/// Runs the wire, the workers and the controller of a plan beside each other, until each has ended.
/// `pace` is called by each worker with its number, by the wire with the number of workers, and by
/// the controller with the next number.
pub(crate) fn run_beside<R: Threads + Wait + Sync, P: Pace + Sync>(
    rt: &R,
    stage: &Stage<Board>,
    plan: &Plan,
    tally: &Tally,
    posts: Vec<Post>,
    wire: SeatedWire,
    controller: SeatedController,
    pace: &P,
) -> (SeatedWire, (Vec<Post>, SeatedController))
    requires posts { CanBeManned (workers_stage stage.now) tally.now posts.items }
    requires wire { WireCan stage.now.shared wire }
    requires controller { ControllerCan plan.now (commands_stage stage.now) controller }
    ensures wire { WireRan stage.now.shared wire result.0 }
    ensures posts { HaveWorked (workers_stage stage.now) tally.now posts.items result.1.0.items }
    ensures controller { ControllerRan plan.now (commands_stage stage.now) controller result.1.1 }
{
    join(
        rt,
        move || -> SeatedWire
            requires { WireCan stage.now.shared wire }
            ensures { WireRan stage.entry.now.shared wire result }
        { run_wire(stage, plan, wire, pace) },
        move || -> (Vec<Post>, SeatedController)
            requires { IsSync R.row
                × CanBeManned (workers_stage stage.now) tally.now posts.items
                × ControllerCan plan.now (commands_stage stage.now) controller }
            ensures { HaveWorked (workers_stage stage.entry.now) tally.entry.now posts.items
                result.0.items
                × ControllerRan plan.entry.now (commands_stage stage.entry.now) controller
                result.1 }
        { run_with_controller(rt, stage, plan, tally, posts, controller, pace) },
    )
}
