//! All that a run begins with.
ghost use Rattle.std.specs.Prelude.{◌≡◌, ◌≤◌, [], IfOk, length};
ghost use Rattle.steer_base.specs.declared.limits.TheConstants.{MAX_PACKETS};
ghost use Rattle.steer_base.specs.Journals.{journal};
ghost use Rattle.steer_model.specs.State.Ranges.{AreOfFlows};
ghost use Rattle.workers.specs.Starts.{IsStart};

use crate::actors::{Actors, Rings};
use crate::boards::RunBoards;
use crate::crew::crew_of;
use crate::seats::RunSeats;
use crate::start_laws::crews_begin;
use crate::wire::Wire;
use hint_words::HintSeat;
use hop_board::Board;
use plan_reader::Plan;
use rss_table::Reta;
use run_controller::Controller;
use run_crew::Seated;
use run_words::Seats;
use run_workers::Stage;
use std::alloc::Global;
use steer_base::{Journal, OutOfMemory, Packet};

/// The wire with its seat.
#[derive(Drop)]
pub struct SeatedWire {
    /// The wire.
    pub wire: Wire,
    /// Its seat at the hint words, the last one.
    pub seat: HintSeat,
}

/// The controller with its seats.
#[derive(Drop)]
pub struct SeatedController {
    /// The controller.
    pub controller: Controller,
    /// Its seats: at each board the last one, that closes the gate, and one at the hint words.
    pub seats: Seats,
}

/// All that a run begins with.
#[derive(Drop)]
pub struct Run {
    /// What the workers share. It has no arrivals yet.
    pub stage: Stage<Board>,
    /// The workers with their seats, by their numbers.
    pub crew: Vec<Seated>,
    /// The wire.
    pub wire: SeatedWire,
    /// The controller.
    pub controller: SeatedController,
}

impl Run {
    /// Makes the boards, the words, the workers with their actors, the wire and the controller of a
    /// run, for a plan and the packets of a capture. `cut` is the length of the capture's cut
    /// record in bytes, if it has one. Allocates all memory that they ever use; the only error is
    /// out of memory.
    pub fn make(
        alloc: Global,
        plan: &Plan,
        packets: &[Packet],
        cut: Option<u32>,
    ) -> Result<Run, OutOfMemory>
        requires few { length packets.now ≤ MAX_PACKETS }
        requires flows { AreOfFlows packets.now }
        ensures { IfOk result (λ r. IsStart plan.now packets.now cut r) }
    {
        let (boards, seats) = RunBoards::make(alloc, plan, packets, cut)?;
        let RunSeats {
            workers,
            controller,
            wire,
        } = RunSeats::of(alloc, seats, plan.workers)?;
        let (rings, actors) = Actors::make(alloc, plan, packets)?;
        crews_begin();
        Ok(Run {
            stage: stage_of(alloc, boards)?,
            crew: crew_of(alloc, actors, workers)?,
            wire: SeatedWire {
                wire: wire_of(alloc, plan, rings, packets.len() as u32)?,
                seat: wire,
            },
            controller: SeatedController {
                controller: Controller::make(alloc, plan)?,
                seats: controller,
            },
        })
    }
}

// What the workers share, before any arrival.
fn stage_of(alloc: Global, boards: RunBoards) -> Result<Stage<Board>, OutOfMemory>
    ensures rx { IfOk result (λ s. s.rx ≡ boards.rx) }
    ensures tx { IfOk result (λ s. s.tx ≡ boards.tx) }
    ensures shared { IfOk result (λ s. s.shared ≡ boards.shared) }
    ensures late { IfOk result (λ s. s.late.items ≡ []) }
{
    let RunBoards { rx, tx, shared } = boards;
    let late = Journal::make(alloc, 0)?;
    Ok(Stage {
        rx,
        tx,
        shared,
        late,
    })
}

// The wire of a plan with these rings, for so many packets.
fn wire_of(alloc: Global, plan: &Plan, rings: Rings, room: u32) -> Result<Wire, OutOfMemory>
    ensures rings { IfOk result (λ w. w.rings ≡ rings) }
    ensures arrivals { IfOk result (λ w. w.arrivals ≡ journal [] room) }
    ensures reta { IfOk result (λ w.
        w.reta ≡ record { queues = length plan.now.queues; entries = plan.now.reta }) }
{
    Ok(Wire {
        rings,
        arrivals: Journal::make(alloc, room)?,
        reta: Reta::from_entries(plan.queues.len() as u8, plan.reta.as_slice()),
    })
}
