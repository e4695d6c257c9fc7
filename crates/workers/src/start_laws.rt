//! A lemma on how a run begins.
ghost use Rattle.workers.specs.StartLaws.{CrewsBegin};

use crate::board_laws::boards_have_their_settings;
use run_words::coded_values_read_back;
use run_workers::workers_begin;

/// Lemma: workers with the first actors of a plan, dealt out to the first seats of its boards, work
/// together, and each queue's poller has the other end of its ring.
pub(crate) fn crews_begin()
    ensures { CrewsBegin }
{
    boards_have_their_settings();
    coded_values_read_back();
    workers_begin();
}
