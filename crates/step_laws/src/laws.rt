//! Lemmas on the steps of the machine: functions without code whose contracts state them.
ghost use Rattle.step_laws.specs.Origins.FilterOrigins.{FiltersAreFromChoices};
ghost use Rattle.step_laws.specs.Origins.SettingWrites.{ValuesAreLastWrites};
ghost use Rattle.step_laws.specs.IdleReasons.{IdleForFirstReason, NewIsStaged};
ghost use Rattle.step_laws.specs.IdleReasons.{StepsKeepStaged};
ghost use Rattle.step_laws.specs.Settings.{SettingsFollow};
ghost use Rattle.step_laws.specs.Steps.{IdleLeavesAll, RefusedLeavesAll};
ghost use Rattle.step_laws.specs.Origins.SocketOrigins.{EntriesAreWritten};
ghost use Rattle.step_laws.specs.Origins.TableWrites.{EntriesAreLastWrites, FiltersAreLastWrites};
ghost use Rattle.step_laws.specs.Origins.TableWrites.{StepsAreEvents, TablesStartUnset};

/// Lemma: a step of one event that is idle leaves the machine as it was.
pub fn an_idle_step_leaves_all()
    ensures { IdleLeavesAll }
{}

/// Lemma: in a machine whose hands have at most one packet, a step of one event is done if and only
/// if all that it needs holds, and otherwise idle for the first reason.
pub fn a_step_is_idle_for_its_first_reason()
    ensures { IdleForFirstReason }
{}

/// Lemma: in a new machine and after any steps each hand has at most one packet, a poller that
/// looked has one to weigh, and one that asks for a filter has put it.
pub fn a_hand_has_one_packet()
    ensures new { NewIsStaged }
    ensures steps { StepsKeepStaged }
{}

/// Lemma: a command that is not done changes nothing but the list of commands.
pub fn a_refused_command_leaves_all()
    ensures { RefusedLeavesAll }
{}

/// Lemma: each setting in force is what the last done command for it wrote, otherwise its first
/// value.
pub fn a_value_in_force_is_the_last_write()
    ensures { ValuesAreLastWrites }
{}

/// Lemma: after any steps the settings are the first ones changed by the done commands.
pub fn settings_follow_the_commands()
    ensures { SettingsFollow }
{}

/// Lemma: an entry of the socket flow table and a filter are what was written there last, otherwise
/// what they were at first. A plan starts with none of them set (`start`). Any steps are some
/// single events and commands (`steps`), after which both are the last writes (`entries`,
/// `filters`). From the start on, each entry that is set is a write of the history (`written`), and
/// each filter is from a choice that moved and whose packet was accepted (`chosen`).
pub fn a_table_in_force_is_the_last_writes()
    ensures start { TablesStartUnset }
    ensures steps { StepsAreEvents }
    ensures entries { EntriesAreLastWrites }
    ensures filters { FiltersAreLastWrites }
    ensures written { EntriesAreWritten }
    ensures chosen { FiltersAreFromChoices }
{}
