//! Lemmas that relate a table to the lists of choices and of accepted packets: functions without
//! code whose contracts state them.
ghost use Rattle.dev_flow_table.specs.Folds.{TableIsEntries};
ghost use Rattle.dev_flow_table.specs.Walks.{SinceIsLastChange, WalkKeepsOrder, WalksMove};

/// Lemma: a table that begins unset and records each choice and each put has the entries that the
/// lists of choices and of accepted packets give.
pub fn a_table_has_the_entries_of_the_lists()
    ensures { TableIsEntries }
{}

/// Lemma: of two choices for one class of a producer, the earlier packet was retired before the
/// later one was put, or both have the same lane. Some such choices have two lanes.
pub fn a_class_walks_in_order()
    ensures order { WalkKeepsOrder }
    ensures moves { WalksMove }
{}

/// Lemma: since the choice `since_resize` a table had one size, and after each earlier choice its
/// size changed.
pub fn a_table_was_cleared_at_the_last_change()
    ensures { SinceIsLastChange }
{}
