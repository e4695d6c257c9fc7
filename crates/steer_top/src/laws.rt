//! Laws of files and texts, as functions that do nothing: their contracts are the laws.
ghost use Rattle.steer_top.specs.Files.{IsDecided, IsRefusedOnce, IsNotBoth};
ghost use Rattle.steer_top.specs.Functions.{TextsAreFunctions};
ghost use Rattle.steer_top.specs.Laws.{HasOneHash, HasOneQueue, ReplaysAreChecked};
ghost use Rattle.steer_top.specs.Laws.{RunsAreFoundGood};

use ntuple_rules::both_directions_fold_alike;
use pcap_reader::one_capture_or_fault;
use pcapng_reader::one_capture_or_fault as one_pcapng_capture_or_fault;
use report_verdict::{a_verdict_is_one, good_is_said_of_good_histories, replays_are_judged};
use steer_model::{a_capture_has_one_list_of_packets, packets_are_of_flows};

/// The files of a call are accepted or refused, and never both, and refused for one reason at most.
pub fn a_call_is_decided()
    ensures either { IsDecided }
    ensures once { IsRefusedOnce }
    ensures apart { IsNotBoth }
{
    one_capture_or_fault();
    one_pcapng_capture_or_fault();
}

/// The report that `replay` writes of some files is, by the same files, not checked, good, or fails
/// one of the clauses first that speak of all packets of the capture: 1, 3, 8 or 9.
pub fn a_replay_is_checked()
    ensures { ReplaysAreChecked }
{
    replays_are_judged();
    a_capture_has_one_list_of_packets();
    packets_are_of_flows();
}

/// The report that `run` writes of some files, if the plan has no commands, is good by the same
/// files.
pub fn a_run_is_found_good()
    ensures { RunsAreFoundGood }
{
    good_is_said_of_good_histories();
}

/// What a call comes to is a function of its words, of the bytes of its files, and for `replay` of
/// what the taps mean: its text for every command but `run`, and its status and its line for all,
/// unless the desk or the sink of the text failed or memory ran out.
pub fn texts_are_functions()
    ensures { TextsAreFunctions }
{
    one_capture_or_fault();
    one_pcapng_capture_or_fault();
    a_call_is_decided();
    a_capture_has_one_list_of_packets();
    a_verdict_is_one();
}

/// By symmetric rules a flow and its other direction have one hash, and where there is no rule one
/// queue.
pub fn both_directions_have_one_queue()
    ensures hash { HasOneHash }
    ensures queue { HasOneQueue }
{
    both_directions_fold_alike();
}
