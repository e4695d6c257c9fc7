//! The boards of a run and the words that its threads share.
ghost use Rattle.std.specs.Prelude.{◌≡◌, ◌≤◌, ◌+◌, IfOk, length};
ghost use Rattle.std.specs.Vec.{vec_len};
ghost use Rattle.steer_base.specs.declared.limits.TheConstants.{MAX_PACKETS};
ghost use Rattle.steer_model.specs.State.Ranges.{AreOfFlows};
ghost use Rattle.workers.specs.Boards.{AreSeatsAt, AreSeatsOf, AreBoardsOf};
ghost use Rattle.workers.specs.Boards.{receive_sizes, transmit_sizes};

use board_api::BoardSeat;
use hint_words::{HintSeat, Hints};
use hop_board::Board;
use hop_model::{HopShape, MAX_HOP_ROOM};
use plan_reader::Plan;
use run_words::{Shared, first_receive_settings, first_transmit_settings, word_count};
use std::alloc::Global;
use steer_base::{CpuMask, OutOfMemory, Packet};
use steer_model::Given;

/// The boards of a run and the words that its threads share.
#[derive(Drop)]
pub struct RunBoards {
    /// The receive board: a middle lane for each processor, and an out lane, its inbox, for each
    /// application.
    pub rx: Board,
    /// The transmit board: a middle lane for each transmit queue, and one out lane, the port.
    pub tx: Board,
    /// The words beside the boards, and what the plan and the capture fix.
    pub shared: Shared,
}

/// All seats of a run's boards and words, by their numbers.
#[derive(Drop)]
pub struct AllSeats {
    /// Those at the receive board: of the workers, and last of the controller.
    pub rx: Vec<BoardSeat>,
    /// Those at the transmit board, of the same.
    pub tx: Vec<BoardSeat>,
    /// Those at the words: of the workers, of the controller, and last of the wire.
    pub hints: Vec<HintSeat>,
}

impl RunBoards {
    /// Makes the boards and the words for a plan and the packets of a capture, and all their seats.
    /// `cut` is the length of the capture's cut record in bytes, if it has one. Allocates all
    /// memory that the boards and the words ever use; the only error is out of memory.
    pub fn make(
        alloc: Global,
        plan: &Plan,
        packets: &[Packet],
        cut: Option<u32>,
    ) -> Result<(RunBoards, AllSeats), OutOfMemory>
        requires few { length packets.now ≤ MAX_PACKETS }
        requires flows { AreOfFlows packets.now }
        ensures boards { IfOk result (λ r. AreBoardsOf plan.now packets.now cut r.0) }
        ensures seats { IfOk result (λ r. AreSeatsOf plan.now r.0 r.1) }
    {
        let room = packets.len() as u32;
        let (rx, rx_seats) = make_receive_board(alloc, plan, room)?;
        let (tx, tx_seats) = make_transmit_board(alloc, plan, room)?;
        let given = Given::of_plan(alloc, plan, packets, cut)?;
        let (hints, hint_seats) = Hints::make(alloc, word_count(room), plan.workers + 2)?;
        Ok((
            RunBoards {
                rx,
                tx,
                shared: Shared {
                    hints,
                    given,
                    filters: plan.filters,
                },
            },
            AllSeats {
                rx: rx_seats,
                tx: tx_seats,
                hints: hint_seats,
            },
        ))
    }
}

// The receive board of a plan, for so many packets.
fn make_receive_board(
    alloc: Global,
    plan: &Plan,
    room: u32,
) -> Result<(Board, Vec<BoardSeat>), OutOfMemory>
    requires few { room ≤ MAX_PACKETS }
    ensures sizes { IfOk result (λ r. r.0.sizes ≡ receive_sizes plan.now room) }
    ensures seats { IfOk result (λ r. AreSeatsAt (plan.now.workers + 1) r.0 r.1.items) }
    ensures all { IfOk result (λ r. vec_len r.1 ≡ plan.now.workers + 1) }
{
    let shape = HopShape {
        producers: plan.queues.len() as u8,
        guests: plan.apps.len() as u8,
        lanes: plan.cpus,
        outs: plan.apps.len() as u8,
        limit: plan.backlog,
        room,
        counts: Vec::new(alloc),
        exact: false,
        start: plan.start,
        limited: plan.limited,
    };
    let settings = first_receive_settings(alloc, plan)?;
    Board::make(alloc, &shape, &settings, plan.workers + 1)
}

// The transmit board of a plan, for so many packets. Its lanes are never full.
fn make_transmit_board(
    alloc: Global,
    plan: &Plan,
    room: u32,
) -> Result<(Board, Vec<BoardSeat>), OutOfMemory>
    requires few { room ≤ MAX_PACKETS }
    ensures sizes { IfOk result (λ r. r.0.sizes ≡ transmit_sizes plan.now room) }
    ensures seats { IfOk result (λ r. AreSeatsAt (plan.now.workers + 1) r.0 r.1.items) }
    ensures all { IfOk result (λ r. vec_len r.1 ≡ plan.now.workers + 1) }
{
    let shape = HopShape {
        producers: plan.apps.len() as u8,
        guests: 0,
        lanes: plan.tx.len() as u8,
        outs: 1,
        limit: MAX_HOP_ROOM,
        room,
        counts: Vec::new(alloc),
        exact: true,
        start: plan.start,
        limited: CpuMask(0),
    };
    let settings = first_transmit_settings(alloc, plan)?;
    Board::make(alloc, &shape, &settings, plan.workers + 1)
}
