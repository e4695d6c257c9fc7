//! Lemmas on the boards of a plan: functions without code whose contracts state them.
ghost use Rattle.workers.specs.BoardLaws.{PlansFitBoards, BoardsHaveSettings};

use run_words::first_values_stand;

/// Lemma: the boards that a plan begins with are a receive board and a transmit board of it, with
/// its settings, for each history that begins where the plan does and has the lists that the boards
/// leave.
pub fn plans_fit_their_boards()
    ensures { PlansFitBoards }
{
    first_values_stand();
}

/// Lemma: the boards and the words have what the calls of workers and of the controller ask for:
/// the numbers of settings, lanes and words.
pub fn boards_have_their_settings()
    ensures { BoardsHaveSettings }
{}
