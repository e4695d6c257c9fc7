//! One try of a command.
ghost use Rattle.std.specs.Prelude.{◌≡◌, ℕ, ◌+◌, ◌-◌, ◌*◌, ◌^◌, ◌<◌, ◌≤◌, length};
ghost use Rattle.steer_base.specs.Sets.{has};
ghost use Rattle.steer_base.specs.declared.limits.TheConstants.{MAX_SOCKET_SIZE};
ghost use Rattle.plan_reader.specs.declared.limits.TheConstants.{MAX_PLAN_FILTERS};
ghost use Rattle.hop_rule.specs.declared.sizes.TheConstants.{MAX_OPENINGS};
ghost use Rattle.steer_model.specs.Steps.Commands.{affects};
ghost use Rattle.run_words.specs.Numbers.{word_count};
ghost use Rattle.run_controller.specs.Attempts.{Attempts, DoesAtOnce, HasNoGate, Tries};
ghost use Rattle.run_controller.specs.Attempts.{TriesAtReceive, TriesAtTransmit};
ghost use Rattle.run_controller.specs.Settings.{IsKnown};
ghost use Rattle.run_controller.specs.Stages.{AreSeated, IsNamed, IsSeated, IsStage, opened_by};
ghost use Rattle.run_controller.specs.Stages.{stage};

use crate::change::Change;
use crate::expiry::expire;
use crate::gated::try_gated;
use crate::known::{Known, transmit_change};
use crate::sockets::try_socket_size;
use board_api::Board;
use hotplug::affected;
use run_words::{HintWord, Seats, Shared, place_word};
use steer_base::{Answer, Command, CpuMask};
use steer_model::{Given, refused_answer};

/// Tries a command once. It is refused if the settings that are known forbid it, otherwise done
/// or found busy.
pub fn attempt<B: Board>(
    shared: &Shared,
    rx: &B,
    tx: &B,
    seats: &mut Seats,
    known: &Known,
    command: &Command,
) -> Answer
    requires stage { IsStage (stage shared.now (B.view rx.now) (B.view tx.now)) }
    requires seated { AreSeated (stage shared.now (B.view rx.now) (B.view tx.now))
        (MAX_OPENINGS - 1) seats.old }
    requires known { IsKnown shared.now.given (2 ^ 32 - 2) known.now }
    requires named { IsNamed shared.now.given command.now }
    ensures { Attempts (stage shared.now (B.view rx.now) (B.view tx.now)) known.now command.now
        result seats.old seats.new }
{
    match known.refusal(command, &shared.given) {
        Some(why) => refused_answer(&why),
        None => try_command(shared, rx, tx, seats, known, command),
    }
}

// Tries a command that may be given.
fn try_command<B: Board>(
    shared: &Shared,
    rx: &B,
    tx: &B,
    seats: &mut Seats,
    known: &Known,
    command: &Command,
) -> Answer
    requires stage { IsStage (stage shared.now (B.view rx.now) (B.view tx.now)) }
    requires seated { AreSeated (stage shared.now (B.view rx.now) (B.view tx.now))
        (MAX_OPENINGS - 1) seats.old }
    requires known { IsKnown shared.now.given (2 ^ 32 - 2) known.now }
    requires named { IsNamed shared.now.given command.now }
    ensures { Tries (stage shared.now (B.view rx.now) (B.view tx.now)) known.now command.now
        result seats.old seats.new }
{
    if let Some(change) = known.receive_change(command, &shared.given) {
        return try_at_receive(shared, rx, seats, command, change);
    }
    match transmit_change(command, &shared.given) {
        Some(change) => try_at_transmit(shared, tx, seats, command, change),
        None => do_at_once(shared, rx, seats, command),
    }
}

// Tries a command that makes a change at the receive board.
fn try_at_receive<B: Board>(
    shared: &Shared,
    board: &B,
    seats: &mut Seats,
    command: &Command,
    change: Change,
) -> Answer
    requires words { MAX_SOCKET_SIZE ≤ shared.now.hints.words }
    requires seated { IsSeated (B.view board.now) seats.old.rx }
    requires few { opened_by seats.old.rx < MAX_OPENINGS }
    requires within { change.number < length (B.view board.now).sizes.settings }
    requires hint_table { seats.old.hint.table ≡ shared.now.hints.table }
    ensures { TriesAtReceive shared.now.given (B.view board.now).sizes command.now change result
        seats.old seats.new }
{
    let lanes = affected_lanes(&shared.given, command);
    match command {
        Command::Sock(_) => {
            let hint = &mut seats.hint;
            try_socket_size(board, shared, &mut seats.rx, hint, lanes, change)
        }
        _ => try_gated(board, &mut seats.rx, lanes, change.number, change.value),
    }
}

// Tries a command that makes a change at the transmit board.
fn try_at_transmit<B: Board>(
    shared: &Shared,
    board: &B,
    seats: &mut Seats,
    command: &Command,
    change: Change,
) -> Answer
    requires seated { IsSeated (B.view board.now) seats.old.tx }
    requires few { opened_by seats.old.tx < MAX_OPENINGS }
    requires within { change.number < length (B.view board.now).sizes.settings }
    ensures { TriesAtTransmit shared.now.given (B.view board.now).sizes command.now change result
        seats.old seats.new }
{
    let lanes = affected_lanes(&shared.given, command);
    try_gated(board, &mut seats.tx, lanes, change.number, change.value)
}

// The lanes that must be empty for a command.
fn affected_lanes(given: &Given, command: &Command) -> CpuMask
    ensures { (lane : ℕ) → lane < 32 → has result lane ≡ affects given.now command.now lane }
{
    given.ranges();
    affected(command, given.homes(), given.cpus(), given.txs())
}

// Does a command that needs no gate.
fn do_at_once<B: Board>(shared: &Shared, board: &B, seats: &mut Seats, command: &Command) -> Answer
    requires named { IsNamed shared.now.given command.now }
    requires no_gate { HasNoGate command.now }
    requires seated { IsSeated (B.view board.now) seats.old.rx }
    requires hint_table { seats.old.hint.table ≡ shared.now.hints.table }
    requires words { shared.now.hints.words ≡ word_count (length shared.now.given.packets) }
    requires filters { shared.now.filters ≤ MAX_PLAN_FILTERS }
    requires settings { length (B.view board.now).sizes.settings
        ≡ 2 * length shared.now.given.homes + 2 }
    requires lanes { (B.view board.now).sizes.lanes ≡ shared.now.given.cpus }
    ensures { DoesAtOnce shared.now command.now result seats.old seats.new }
{
    shared.given.ranges();
    match *command {
        Command::Reta(entry, queue) => {
            let word = HintWord::Redirection(entry).number();
            shared
                .hints
                .store(&mut seats.hint, word, place_word(queue.0));
            Answer::Done
        }
        Command::Stand(app, cpu) => {
            let word = HintWord::Stand(app).number();
            shared.hints.store(&mut seats.hint, word, place_word(cpu.0));
            Answer::Done
        }
        _ => Answer::Expired(expire(board, shared, &mut seats.rx, &mut seats.hint)),
    }
}
