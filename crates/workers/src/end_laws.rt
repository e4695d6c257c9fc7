//! Lemmas on the end of a run: functions without code whose contracts state them.
ghost use Rattle.workers.specs.EndLaws.{LeftListsMakeHistories, OneListIsLeft};

use crate::board_laws::plans_fit_their_boards;
use run_controller::the_controller_keeps_its_coupling;
use run_coupling::shared_codes_exist;
use run_crew::{crews_have_turns, the_wire_keeps_its_coupling, threads_keep_their_parts};

/// Lemma: the lists left by a finished run form a history that satisfies `RunEnds`.
pub fn left_lists_make_histories()
    ensures ends { LeftListsMakeHistories }
    ensures port { OneListIsLeft }
{
    crews_have_turns();
    threads_keep_their_parts();
    the_wire_keeps_its_coupling();
    the_controller_keeps_its_coupling();
    plans_fit_their_boards();
    shared_codes_exist();
}
