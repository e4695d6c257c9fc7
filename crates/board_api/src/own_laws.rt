//! Lemmas on a seat's own list. The functions have no code.
ghost use Rattle.board_api.specs.Laws.OwnSteps.{NumberedReadsStay, PlacesAreNumbered};
ghost use Rattle.board_api.specs.Laws.OwnSteps.{QuietStepsStay, ReadsAreNumbered};
ghost use Rattle.board_api.specs.Laws.OwnSteps.{StepsAreNumbered, TakenLanesAreHeld};

/// Lemma: a seat that has taken a lane by its last steps holds it.
pub fn a_taken_lane_is_held()
    ensures { TakenLanesAreHeld }
{}

/// Lemma: steps other than entries, leaves, closes, openings and sets leave a seat inside or
/// outside as it was, and the gate closed by it or not as it was.
pub fn quiet_steps_stay()
    ensures { QuietStepsStay }
{}

/// Lemma: the number of a step in a seat's own list is how many steps are before it.
pub fn a_step_has_its_number()
    ensures older { StepsAreNumbered }
    ensures place { PlacesAreNumbered }
{}

/// Lemma: a setting is read in a visit with a number, which stays so whatever the seat does later.
/// So a thread may keep what it read, with the number of that visit.
pub fn a_read_has_its_visits_number()
    ensures read { ReadsAreNumbered }
    ensures stays { NumberedReadsStay }
{}
