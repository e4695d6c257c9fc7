//! The posts of the workers: where each works while the threads run, with its place at the tally.
ghost use Rattle.std.specs.Prelude.{◌≡◌, ◌<◌, ◌∷◌, [], IfOk, length, map};
ghost use Rattle.std.specs.Vec.{vec_len};
ghost use Rattle.steer_base.specs.Journals.{journal};
ghost use Rattle.workers.specs.Posts.{ArePosts, AreFirstCounters};

use hint_words::HintSeat;
use run_crew::Seated;
use run_workers::{Counter, Tally};
use std::alloc::Global;
use steer_base::{Journal, OutOfMemory};

/// A worker with its seats and its place at the tally.
#[derive(Drop)]
pub struct Post {
    /// The worker with its seats.
    pub seated: Seated,
    /// Its place at the tally.
    pub counter: Counter,
}

/// What the workers of a run need at their posts, and empty lists with room for them, so that
/// nothing is allocated when they go there and come back.
#[derive(Drop)]
pub struct Posts {
    /// The tally.
    pub tally: Tally,
    /// The place of each worker at the tally.
    pub counters: Vec<Counter>,
    /// For the workers at their posts.
    pub posts: Journal<Post>,
    /// For the workers when they come back.
    pub crew: Journal<Seated>,
    /// For the seats of the tally.
    pub seats: Journal<HintSeat>,
}

impl Posts {
    /// The tally and the lists for so many workers. The only error is out of memory.
    pub fn make(alloc: Global, workers: u32) -> Result<Posts, OutOfMemory>
        ensures { IfOk result (ArePosts workers) }
    {
        let (tally, seats) = Tally::make(alloc, workers)?;
        Ok(Posts {
            tally,
            counters: counters_of(alloc, seats, workers)?,
            posts: Journal::make(alloc, workers)?,
            crew: Journal::make(alloc, workers)?,
            seats: Journal::make(alloc, workers)?,
        })
    }
}

// A counter at each of these seats, by number.
fn counters_of(
    alloc: Global,
    seats: Vec<HintSeat>,
    workers: u32,
) -> Result<Vec<Counter>, OutOfMemory>
    requires { length seats.items ≡ workers }
    ensures { IfOk result (λ counters. AreFirstCounters seats.items counters.items) }
{
    let mut left = seats;
    let mut counters = Vec::with_capacity(alloc, workers as usize)?;
    for number in 0..workers {
        let seat = next(&mut left);
        counters.push(Counter::new(seat, number))?;
    }
    Ok(counters)
}

/// Puts each worker at the place of its number.
pub fn man(crew: Vec<Seated>, counters: Vec<Counter>, posts: Journal<Post>) -> Vec<Post>
    requires counters { length counters.items ≡ length crew.items }
    requires posts { posts ≡ journal [] (length crew.items) }
    ensures crew { map (λ p. p.seated) result.items ≡ crew.items }
    ensures counters { map (λ p. p.counter) result.items ≡ counters.items }
{
    let mut left = counters;
    let mut manned = posts;
    for seated in crew {
        let counter = next(&mut left);
        manned.push(Post { seated, counter });
    }
    manned.into_vec()
}

/// Takes the workers and the seats of the tally back from the posts.
pub fn dismiss(
    posts: Vec<Post>,
    crew: Journal<Seated>,
    seats: Journal<HintSeat>,
) -> (Vec<Seated>, Vec<HintSeat>)
    requires crew { crew ≡ journal [] (length posts.items) }
    requires seats { seats ≡ journal [] (length posts.items) }
    ensures crew { result.0.items ≡ map (λ p. p.seated) posts.items }
    ensures seats { result.1.items ≡ map (λ p. p.counter.seat) posts.items }
{
    let (mut back, mut free) = (crew, seats);
    for post in posts {
        let Post { seated, counter } = post;
        back.push(seated);
        free.push(counter.seat);
    }
    (back.into_vec(), free.into_vec())
}

// Takes the first item.
fn next<T>(left: &mut Vec<T>) -> T
    requires { 0 < vec_len left.old }
    ensures { left.old.items ≡ result ∷ left.new.items }
{
    left.remove(0)
}
