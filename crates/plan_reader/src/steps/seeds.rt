//! The steps of a seed.
ghost use Rattle.std.specs.Prelude.{◌≡◌, ◌≤◌, ◌%◌, ◌+◌, true};
ghost use Rattle.rand_pcg.specs.Lcg.{advance};
ghost use Rattle.rand_pcg.specs.Pcg.{multiplier_64};
ghost use Rattle.plan_reader.specs.Ranges.{step_is_within};
ghost use Rattle.plan_reader.specs.Seeds.{event_of, generator, seeded_step, seeded_word};

use crate::settings::sizes::Sizes;
use rand_core::utils::NextWord;
use rand_pcg::Lcg64Xsh32;
use steer_base::Step;

/// Word `i` of a seed, from 0, in a logarithmic number of steps.
#[tactic(auto, unfolding(crate::specs::Seeds::seeded_word))]
pub fn word_of(seed: u64, i: u32) -> u32
    ensures { result ≡ seeded_word seed i }
{
    let mut words = generator(seed);
    words.advance(u64::from(i));
    words.next_word()
}

/// The generator of a seed, which has given no word.
#[tactic(auto, unfolding(crate::specs::Seeds::generator))]
pub fn generator(seed: u64) -> Lcg64Xsh32
    ensures value { result ≡ generator seed }
    ensures given { result ≡ advance 64 multiplier_64 0 (generator seed) }
{
    Lcg64Xsh32::new(seed, 54)
}

/// The next word of a generator that has given `i` words of a seed.
#[tactic(auto, unfolding(crate::specs::Seeds::seeded_word))]
pub fn next_word(words: &mut Lcg64Xsh32, seed: u64, i: u32) -> u32
    requires { words.old ≡ advance 64 multiplier_64 i (generator seed) }
    ensures word { result ≡ seeded_word seed i }
    ensures next { words.new ≡ advance 64 multiplier_64 (i + 1) (generator seed) }
{
    words.next_word()
}

/// A number modulo a size.
fn wrapped(number: u32, size: u8) -> u8
    requires { 1 ≤ size }
    ensures { result ≡ number % size }
{
    (number % u32::from(size)) as u8
}

/// A single event.
fn event_of(sizes: Sizes, which: u32, number: u32) -> Step
    requires some_cpu { 1 ≤ sizes.cpus }
    requires some_queue { 1 ≤ sizes.queues }
    ensures event { result ≡ event_of sizes which number }
    ensures within { step_is_within sizes result ≡ true }
{
    match which {
        0 => Step::Take(wrapped(number, sizes.queues)),
        1 => Step::Enter(wrapped(number, sizes.queues)),
        2 => Step::Look(wrapped(number, sizes.queues)),
        _ => Step::Pull(wrapped(number, sizes.cpus)),
    }
}

/// The step of a word.
#[tactic(auto, unfolding(crate::specs::Seeds::seeded_step))]
pub fn seeded_step(sizes: Sizes, word: u32) -> Step
    requires some_cpu { 1 ≤ sizes.cpus }
    requires some_queue { 1 ≤ sizes.queues }
    requires some_app { 1 ≤ sizes.apps }
    requires some_tx { 1 ≤ sizes.tx }
    ensures step { result ≡ seeded_step sizes word }
    ensures within { step_is_within sizes result ≡ true }
{
    let number = word / 16;
    match word % 16 {
        0..=4 => Step::Arrive,
        5..=8 => Step::Poll(wrapped(number, sizes.queues)),
        9..=11 => Step::Drain(wrapped(number, sizes.cpus)),
        12..=13 => Step::Serve(wrapped(number, sizes.apps)),
        14 => Step::Ship(wrapped(number, sizes.tx)),
        _ => event_of(sizes, number % 4, number / 4),
    }
}
