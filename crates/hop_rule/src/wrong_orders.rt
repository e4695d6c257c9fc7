//! Lemmas: the orders that a wrong board would leave are not lawful. The functions have no code.
ghost use Rattle.hop_rule.specs.Unlawful.{PullsTheNewest, PutsElsewhere, ReadsTwoValues};
ghost use Rattle.hop_rule.specs.Unlawful.{RetiresBeforeDelivery, SetsInAnOpenGate};

/// Lemma: a put into another lane than the held one is not lawful.
pub fn a_put_is_into_the_held_lane()
    ensures { PutsElsewhere }
{}

/// Lemma: a pull of another packet than the one that waits longest is not lawful.
pub fn a_pull_is_of_the_oldest_packet()
    ensures { PullsTheNewest }
{}

/// Lemma: a head that is raised before its delivery is not lawful.
pub fn a_head_is_raised_after_its_delivery()
    ensures { RetiresBeforeDelivery }
{}

/// Lemma: a setting that is made in an open gate is not lawful.
pub fn a_setting_is_made_in_a_closed_gate()
    ensures { SetsInAnOpenGate }
{}

/// Lemma: a visit that reads two values of one setting word is not lawful.
pub fn a_visit_reads_one_value_of_a_setting()
    ensures { ReadsTwoValues }
{}
