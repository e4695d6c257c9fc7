//! The expiry of the filters.
ghost use Rattle.std.specs.Prelude.{◌≡◌, ◌+◌, ◌*◌, ◌<◌, ◌≤◌, length};
ghost use Rattle.plan_reader.specs.declared.limits.TheConstants.{MAX_PLAN_FILTERS};
ghost use Rattle.board_api.specs.Calls.Rights.{IsInside};
ghost use Rattle.run_words.specs.declared.hint_word.TheConstants.{FILTER_WORDS};
ghost use Rattle.run_controller.specs.Expiries.{Expires, ExpiresAll, ExpiresOne};
ghost use Rattle.run_controller.specs.Stages.{IsSeated};

use accel_filter::may_expire;
use board_api::{Board, BoardSeat};
use hint_words::HintSeat;
use run_words::{HintWord, ReceiveSetting, Shared, filter_in, flows_in};

/// Clears each filter that may go, in one visit of the receive board, and returns how many it
/// cleared. A filter that was stored anew meanwhile stays.
pub fn expire<B: Board>(
    board: &B,
    shared: &Shared,
    seat: &mut BoardSeat,
    hint: &mut HintSeat,
) -> u32
    requires seated { IsSeated (B.view board.now) seat.old }
    requires hint_table { hint.old.table ≡ shared.now.hints.table }
    requires words { FILTER_WORDS + shared.now.filters ≤ shared.now.hints.words }
    requires filters { shared.now.filters ≤ MAX_PLAN_FILTERS }
    requires settings { length (B.view board.now).sizes.settings
        ≡ 2 * length shared.now.given.homes + 2 }
    requires lanes { (B.view board.now).sizes.lanes ≡ shared.now.given.cpus }
    ensures { Expires shared.now seat.old seat.new hint.old hint.new result }
{
    board.enter(seat);
    let count = expire_all(board, shared, seat, hint);
    board.leave(seat);
    count
}

// Clears each filter that may go, in a visit, and returns how many it cleared.
fn expire_all<B: Board>(
    board: &B,
    shared: &Shared,
    seat: &mut BoardSeat,
    hint: &mut HintSeat,
) -> u32
    requires table { seat.old.table ≡ (B.view board.now).table }
    requires inside { IsInside seat.old.steps }
    requires hint_table { hint.old.table ≡ shared.now.hints.table }
    requires words { FILTER_WORDS + shared.now.filters ≤ shared.now.hints.words }
    requires filters { shared.now.filters ≤ MAX_PLAN_FILTERS }
    requires settings { length (B.view board.now).sizes.settings
        ≡ 2 * length shared.now.given.homes + 2 }
    requires lanes { (B.view board.now).sizes.lanes ≡ shared.now.given.cpus }
    ensures all { ExpiresAll shared.now shared.now.filters seat.old seat.new hint.old hint.new
        result }
    ensures table { seat.new.table ≡ seat.old.table }
    ensures inside { IsInside seat.new.steps }
{
    let mut count = 0;
    for place in 0..shared.filters {
        if expire_one(board, shared, seat, hint, place) {
            count += 1;
        }
    }
    count
}

// Clears the filter of a place if it may go, in a visit, and returns whether it cleared it.
fn expire_one<B: Board>(
    board: &B,
    shared: &Shared,
    seat: &mut BoardSeat,
    hint: &mut HintSeat,
    place: u32,
) -> bool
    requires table { seat.old.table ≡ (B.view board.now).table }
    requires inside { IsInside seat.old.steps }
    requires hint_table { hint.old.table ≡ shared.now.hints.table }
    requires words { FILTER_WORDS + place < shared.now.hints.words }
    requires place { place < MAX_PLAN_FILTERS }
    requires settings { length (B.view board.now).sizes.settings
        ≡ 2 * length shared.now.given.homes + 2 }
    requires lanes { (B.view board.now).sizes.lanes ≡ shared.now.given.cpus }
    ensures one { ExpiresOne shared.now place seat.old seat.new hint.old hint.new result }
    ensures table { seat.new.table ≡ seat.old.table }
    ensures inside { IsInside seat.new.steps }
    ensures hint_table { hint.new.table ≡ hint.old.table }
{
    let word = HintWord::Filter(place).number();
    let value = shared.hints.load(hint, word);
    let Some(filter) = filter_in(value, shared.given.queues(), shared.given.cpus()) else {
        return false;
    };
    let head = board.weigh(seat, filter.cpu.0);
    let flows = ReceiveSetting::Flows(filter.queue).number(shared.given.queues());
    let flows = board.setting(seat, flows);
    may_expire(filter, head, flows_in(flows)) && shared.hints.clear_if(hint, word, value)
}
