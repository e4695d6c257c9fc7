//! The sweep, which ends a run on one thread.
ghost use Rattle.std.specs.Prelude.{◌≡◌, ◌≤◌, ◌<◌, ℕ, true, length};
ghost use Rattle.run_workers.specs.Stages.{stage_view};
ghost use Rattle.run_workers.specs.Workers.{GoesOn, IsWorking};
ghost use Rattle.run_crew.specs.CountLaws.{IsFull};
ghost use Rattle.run_crew.specs.Sweeps.{AllWork, GoOn, all_free};

use crate::counts::{Count, count_below};
use crate::seated::Seated;
use board_api::Board;
use run_workers::Stage;
use std::sync::Wait;
use steer_model::Given;

/// Repeats the turns of all workers, in their order, until each packet is on the port or was
/// dropped and no packet is in a hand. It looks before each round: where that is so at first, no
/// worker has a turn. The caller has taken all threads back, and the stage has all arrivals.
pub fn sweep<R: Wait, B: Board>(rt: &R, stage: &Stage<B>, crew: &mut [Seated])
    requires some { 0 < length crew.old }
    requires work { AllWork (stage_view (B.view stage.now.rx) (B.view stage.now.tx)
        stage.now.shared stage.now.late.items) crew.old }
    ensures goes { GoOn (stage_view (B.view stage.now.rx) (B.view stage.now.tx)
        stage.now.shared stage.now.late.items) crew.old crew.new }
    ensures free { all_free crew.new ≡ true }
    ensures full { IsFull crew.new (length stage.now.shared.given.homes) stage.now.shared.given.txs
        (length stage.now.shared.given.packets) }
    ensures rests { IsFull crew.old (length stage.now.shared.given.homes) stage.now.shared.given.txs
        (length stage.now.shared.given.packets) → all_free crew.old ≡ true → crew.new ≡ crew.old }
{
    for _ in rt.forever() {
        if is_over(stage, crew) {
            return;
        }
        play_each(rt, stage, crew);
    }
    unreachable!()
}

// Lets each worker have a turn.
fn play_each<R: Wait, B: Board>(rt: &R, stage: &Stage<B>, crew: &mut [Seated])
    requires work { AllWork (stage_view (B.view stage.now.rx) (B.view stage.now.tx)
        stage.now.shared stage.now.late.items) crew.old }
    ensures goes { GoOn (stage_view (B.view stage.now.rx) (B.view stage.now.tx)
        stage.now.shared stage.now.late.items) crew.old crew.new }
{
    for i in 0..crew.len() {
        play(rt, stage, &mut crew[i]);
    }
}

// Lets a worker have a turn.
fn play<R: Wait, B: Board>(rt: &R, stage: &Stage<B>, seated: &mut Seated)
    requires work { IsWorking (stage_view (B.view stage.now.rx) (B.view stage.now.tx)
        stage.now.shared stage.now.late.items) seated.old.worker seated.old.seats }
    ensures goes { GoesOn (stage_view (B.view stage.now.rx) (B.view stage.now.tx)
        stage.now.shared stage.now.late.items) seated.old.worker seated.new.worker
        seated.old.seats seated.new.seats }
{
    seated.worker.turn(rt, stage, &mut seated.seats);
}

// Whether each packet is on the port or was dropped, and no packet is in a hand.
fn is_over<B>(stage: &Stage<B>, crew: &[Seated]) -> bool
    requires some { 0 < length crew.now }
    ensures free { result ≡ true → all_free crew.now ≡ true }
    ensures full { result ≡ true
        → IsFull crew.now (length stage.now.shared.given.homes) stage.now.shared.given.txs
        (length stage.now.shared.given.packets) }
    ensures rests { IsFull crew.now (length stage.now.shared.given.homes) stage.now.shared.given.txs
        (length stage.now.shared.given.packets) → all_free crew.now ≡ true → result ≡ true }
{
    is_full(&stage.shared.given, crew) && are_free(crew)
}

// Whether each packet is on the port or was dropped, by the counts of the workers.
fn is_full(given: &Given, crew: &[Seated]) -> bool
    requires some { 0 < length crew.now }
    ensures full { result ≡ true
        → IsFull crew.now (length given.now.homes) given.now.txs (length given.now.packets) }
    ensures rests { IsFull crew.now (length given.now.homes) given.now.txs
        (length given.now.packets) → result ≡ true }
{
    let queues = given.queues();
    let due = given.packet_count() as u64 + count_below(crew, Count::Accepted, queues);
    let shipped = count_below(crew, Count::Retired, given.txs());
    let done = shipped + count_below(crew, Count::Chosen, queues);
    due <= done
}

// Whether no worker has a packet in hand.
fn are_free(crew: &[Seated]) -> bool
    ensures { result ≡ all_free crew.now }
{
    crew.iter().all(|seated| seated.worker.is_free())
}
