//! The end of a run, from its threads to its history.
ghost use Rattle.std.specs.Prelude.{◌≡◌, length};
ghost use Rattle.steer_model.specs.Good.Inputs.{Input};
ghost use Rattle.run_crew.specs.RunLaws.{RunEnds};
ghost use Rattle.workers.specs.Left.{IsLeft, history_of};
ghost use Rattle.workers.specs.Overs.{IsOver};
ghost use Rattle.workers.specs.Spares.{IsSpare};

use crate::board_ends::close_all;
use crate::end_laws::left_lists_make_histories;
use crate::lists::{QueueLists, ReplyLists, take_queues, take_replies};
use crate::parts::{all_actors, take_apart};
use crate::spare::Spare;
use crate::start::{Run, SeatedWire};
use board_api::BoardLists;
use history::{Arrival, Commanded, History};
use plan_reader::Plan;
use run_crew::threads_keep_their_parts;
use run_workers::free_workers_rest;
use steer_base::List;

/// The lists that a run leaves.
#[derive(Drop)]
pub struct Left {
    /// The lists of the receive board.
    pub rx: BoardLists,
    /// The lists of the transmit board.
    pub tx: BoardLists,
    /// The lists of the receive queues.
    pub queues: QueueLists,
    /// The lists of the applications.
    pub replies: ReplyLists,
    /// The arrivals.
    pub arrivals: List<Arrival>,
    /// The commands with their answers.
    pub commands: List<Commanded>,
}

/// Ends a run that is over: closes its boards and its words, and puts its history together. All
/// that is known at the end of a run is known of it. Allocates nothing.
pub fn close(plan: &Plan, run: Run, spare: Spare) -> History
    ghost i: { Input }
    requires plan { i.plan ≡ plan.now }
    requires over { IsOver i run }
    requires spare { IsSpare (length plan.now.queues) (length plan.now.apps) plan.now.workers
        spare }
    ensures { RunEnds i result }
{
    left_lists_make_histories();
    let total = run.stage.shared.given.packet_count();
    let cut = run.stage.shared.given.cut();
    let left = leave(plan, run, spare);
    put_together(total, cut, plan.start, left)
}

// Closes the boards and the words, and takes the lists of all threads.
fn leave(plan: &Plan, run: Run, spare: Spare) -> Left
    ghost i: { Input }
    requires plan { i.plan ≡ plan.now }
    requires over { IsOver i run }
    requires spare { IsSpare (length plan.now.queues) (length plan.now.apps) plan.now.workers
        spare }
    ensures { IsLeft run (length plan.now.queues) (length plan.now.apps) result }
{
    free_workers_rest();
    threads_keep_their_parts();
    let Run {
        stage,
        crew,
        wire,
        controller,
    } = run;
    let actors = spare.actors;
    let lists = spare.lists;
    let (dealt_pollers, dealt_servers) = (actors.dealt_pollers, actors.dealt_servers);
    let parts = take_apart(crew, spare.seats, dealt_pollers, dealt_servers);
    let pollers = all_actors(parts.pollers, actors.pollers, plan.queues.len());
    let servers = all_actors(parts.servers, actors.servers, plan.apps.len());
    let SeatedWire { mut wire, seat } = wire;
    let own = controller.seats;
    let controller = controller.controller;
    let shared = stage.shared;
    let (rx, tx) = close_all(stage.rx, stage.tx, shared.hints, parts.seats, own, seat);
    Left {
        rx,
        tx,
        queues: take_queues(pollers, &mut wire, lists.taken, lists.choices),
        replies: take_replies(servers, lists.sent, lists.tx_choices, lists.writes),
        arrivals: List::from_vec(stage.late.into_vec()),
        commands: List::from_vec(controller.commands.into_vec()),
    }
}

// The history of these lists.
fn put_together(total: u32, cut: Option<u32>, start: u32, left: Left) -> History
    requires port { length left.tx.outs ≡ 1 }
    ensures { result ≡ history_of total cut start left }
{
    let Left {
        rx,
        tx,
        queues,
        replies,
        arrivals,
        commands,
    } = left;
    let mut outs = tx.outs.into_vec();
    History {
        total,
        cut,
        arrivals,
        taken: queues.taken,
        choices: queues.choices,
        lanes: rx.lanes,
        inboxes: rx.outs,
        sent: replies.sent,
        tx_choices: replies.choices,
        tx_lanes: tx.lanes,
        port: outs.pop().unwrap(),
        writes: replies.writes,
        commands,
        start,
    }
}
