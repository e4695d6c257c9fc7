//! The words of the command line.
ghost use Rattle.std.specs.Prelude.{◌≡◌, ◌≤◌, ◌<◌, ◌^◌, true, false, Some, None, IfSome, map};
ghost use Rattle.std.specs.Prelude.{string_bytes};
ghost use Rattle.std.specs.Option.{option_map};
ghost use Rattle.cap_gen.specs.declared.frame.TheConstants.{MAX_FLOWS};
ghost use Rattle.steer_base.specs.declared.limits.TheConstants.{MAX_PACKETS};
ghost use Rattle.steer_top.specs.Commands.{check_words_of, gen_words_of, hash_words_of};
ghost use Rattle.steer_top.specs.Commands.{place_words_of, plan_words_of, words_of};
ghost use Rattle.steer_top.specs.Words.CommandWords.{Run};
ghost use Rattle.steer_top.specs.Words.{command_of, gen_with as gen_words, live_command_of};
ghost use Rattle.steer_top.specs.Words.{still_command_of, hash_with as hash_words};
ghost use Rattle.steer_top.specs.Words.{check_arguments as the_check_arguments};
ghost use Rattle.steer_top.specs.Words.{gen_arguments as the_gen_arguments};
ghost use Rattle.steer_top.specs.Words.{hash_arguments as the_hash_arguments};
ghost use Rattle.steer_top.specs.Words.{place_arguments as the_place_arguments};
ghost use Rattle.steer_top.specs.Words.{plan_arguments as the_plan_arguments};
ghost use Rattle.steer_top.specs.Words.{still_command_named as the_still_command_named};
ghost use Rattle.steer_top.specs.Words.{is_name as names_a_file, word_number};
ghost use Rattle.steer_top.specs.Words.{number_within as the_number_within};

use crate::command::{
    CheckCommand, GenCommand, HashCommand, PlaceCommand, PlanCommand, StillCommand,
};
use cap_gen::MAX_FLOWS;
use steer_base::{MAX_PACKETS, decimal_number};

/// The name of the command that needs threads.
const RUN: &str = "run";

/// The most digits that a number may have.
const MAX_DIGITS: u8 = 20;

/// The greatest seed.
const MAX_SEED: u128 = 18_446_744_073_709_551_615;

// Whether the word is neither empty nor an option.
fn is_name(word: &str) -> bool
    ensures { result ≡ names_a_file word.now }
{
    match word.as_bytes().first() {
        None => false,
        Some(first) => *first != b'-',
    }
}

// The number that the word is, if it has one to twenty digits and nothing else.
fn number(word: &str) -> Option<u128>
    ensures { result ≡ word_number word.now }
{
    decimal_number(word.as_bytes(), MAX_DIGITS)
}

// The number that the word is, if it is within the two bounds.
fn number_within(word: &str, low: u128, high: u128) -> Option<u128>
    ensures value { result ≡ the_number_within low high word.now }
    ensures bounds { IfSome result (λ n. (low ≤ n) × (n ≤ high)) }
{
    match number(word) {
        Some(number) if low <= number && number <= high => Some(number),
        _ => None,
    }
}

// The command with these arguments, if both numbers are present and the name is one.
fn hash_with<'a>(
    capture: &'a str,
    queues: Option<u128>,
    kinds: Option<u128>,
) -> Option<HashCommand<'a>>
    requires queues { IfSome queues (λ n. (1 ≤ n) × (n ≤ 16)) }
    requires kinds { IfSome kinds (λ n. n ≤ 63) }
    ensures { option_map hash_words_of result ≡ hash_words capture.now queues kinds }
{
    let queues = queues? as u8;
    let kinds = kinds? as u8;
    if is_name(capture) {
        Some(HashCommand {
            capture,
            queues,
            kinds,
        })
    } else {
        None
    }
}

// The arguments after the word `hash`.
#[tactic(auto, unfolding(crate::specs::Words::hash_arguments))]
fn hash_arguments(words: &[String]) -> Option<HashCommand<'_>>
    ensures { option_map hash_words_of result ≡
        the_hash_arguments (map (λ word. string_bytes word) words.now) }
{
    match words {
        [capture] => hash_with(capture.as_str(), Some(4), Some(63)),
        [capture, queues] => hash_with(
            capture.as_str(),
            number_within(queues.as_str(), 1, 16),
            Some(63),
        ),
        [capture, queues, kinds] => hash_with(
            capture.as_str(),
            number_within(queues.as_str(), 1, 16),
            number_within(kinds.as_str(), 0, 63),
        ),
        _ => None,
    }
}

// The arguments after the words `replay` and `run`.
#[tactic(auto, unfolding(crate::specs::Words::plan_arguments))]
fn plan_arguments(words: &[String]) -> Option<PlanCommand<'_>>
    ensures { option_map plan_words_of result ≡
        the_plan_arguments (map (λ word. string_bytes word) words.now) }
{
    match words {
        [plan, capture] if is_name(plan.as_str()) && is_name(capture.as_str()) => {
            Some(PlanCommand {
                plan: plan.as_str(),
                capture: capture.as_str(),
            })
        }
        _ => None,
    }
}

// The command with these numbers, if all are present.
fn gen_with(seed: Option<u128>, packets: Option<u128>, flows: Option<u128>) -> Option<GenCommand>
    requires seed { IfSome seed (λ n. n < 2 ^ 64) }
    requires packets { IfSome packets (λ n. n ≤ MAX_PACKETS) }
    requires flows { IfSome flows (λ n. (1 ≤ n) × (n ≤ MAX_FLOWS)) }
    ensures { option_map gen_words_of result ≡ gen_words seed packets flows }
{
    let seed = seed? as u64;
    let packets = packets? as u32;
    let flows = flows? as u32;
    Some(GenCommand {
        seed,
        packets,
        flows,
    })
}

// The arguments after the word `gen`.
#[tactic(auto, unfolding(crate::specs::Words::gen_arguments))]
fn gen_arguments(words: &[String]) -> Option<GenCommand>
    ensures { option_map gen_words_of result ≡
        the_gen_arguments (map (λ word. string_bytes word) words.now) }
{
    match words {
        [seed, packets, flows] => gen_with(
            number_within(seed.as_str(), 0, MAX_SEED),
            number_within(packets.as_str(), 0, MAX_PACKETS as u128),
            number_within(flows.as_str(), 1, u128::from(MAX_FLOWS)),
        ),
        _ => None,
    }
}

// The arguments after the word `check`.
#[tactic(auto, unfolding(crate::specs::Words::check_arguments))]
fn check_arguments(words: &[String]) -> Option<CheckCommand<'_>>
    ensures { option_map check_words_of result ≡
        the_check_arguments (map (λ word. string_bytes word) words.now) }
{
    match words {
        [plan, capture, report]
            if is_name(plan.as_str()) && is_name(capture.as_str()) && is_name(report.as_str()) => {
            Some(CheckCommand {
                plan: plan.as_str(),
                capture: capture.as_str(),
                report: report.as_str(),
            })
        }
        _ => None,
    }
}

// The arguments after the word `place`.
#[tactic(auto, unfolding(crate::specs::Words::place_arguments))]
fn place_arguments(words: &[String]) -> Option<PlaceCommand<'_>>
    ensures { option_map place_words_of result ≡
        the_place_arguments (map (λ word. string_bytes word) words.now) }
{
    match words {
        [rules, capture] if is_name(rules.as_str()) && is_name(capture.as_str()) => {
            Some(PlaceCommand {
                rules: rules.as_str(),
                capture: capture.as_str(),
            })
        }
        _ => None,
    }
}

/// The command that the words are, without the program's name, if they are one that needs no
/// threads.
pub fn still_command(words: &[String]) -> Option<StillCommand<'_>>
    ensures { option_map words_of result ≡ still_command_of words.now }
{
    match words {
        [word, rest @ ..] => still_command_named(word.as_str(), rest),
        _ => None,
    }
}

// The command of this name with these arguments that needs no threads.
#[tactic(auto, unfolding(crate::specs::Words::still_command_named))]
fn still_command_named<'a>(name: &str, arguments: &'a [String]) -> Option<StillCommand<'a>>
    ensures { option_map words_of result ≡
        the_still_command_named name.now (map (λ word. string_bytes word) arguments.now) }
{
    if name == "hash" {
        return Some(StillCommand::Hash(hash_arguments(arguments)?));
    }
    if name == "replay" {
        return Some(StillCommand::Replay(plan_arguments(arguments)?));
    }
    if name == "gen" {
        return Some(StillCommand::Gen(gen_arguments(arguments)?));
    }
    if name == "check" {
        return Some(StillCommand::Check(check_arguments(arguments)?));
    }
    if name == "place" {
        return Some(StillCommand::Place(place_arguments(arguments)?));
    }
    None
}

/// The names of the plan and the capture, if the words are the command `run`.
#[tactic(auto, unfolding(crate::specs::Words::live_command_named))]
pub fn live_command(words: &[String]) -> Option<PlanCommand<'_>>
    ensures { option_map (λ names. Run (plan_words_of names)) result ≡ live_command_of words.now }
{
    match words {
        [word, rest @ ..] if word.as_str() == RUN => plan_arguments(rest),
        _ => None,
    }
}

/// Whether the first word is `run`, so that no other command can be meant.
pub fn means_run(words: &[String]) -> bool
    ensures live { result ≡ true → live_command_of words.now ≡ command_of words.now }
    ensures still { result ≡ false → still_command_of words.now ≡ command_of words.now }
{
    match words {
        [word, ..] => word.as_str() == RUN,
        _ => false,
    }
}
