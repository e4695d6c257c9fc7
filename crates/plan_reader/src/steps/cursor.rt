//! The steps of a plan, one after the other.
ghost use Rattle.std.specs.Prelude.{◌≡◌, ◌<◌, ◌+◌, Some, true};
ghost use Rattle.plan_reader.specs.Cursors.{HasGiven};
ghost use Rattle.plan_reader.specs.Plans.{nth_step, sizes_of, step_count};
ghost use Rattle.plan_reader.specs.Ranges.{step_is_within};

use crate::plan::{Plan, Steps};
use crate::steps::seeds::{generator, next_word, seeded_step};
use rand_pcg::Lcg64Xsh32;
use steer_base::Step;

/// A place among the steps of a plan. It keeps the generator of a seed from one step to the next.
#[derive(Drop)]
pub struct StepCursor {
    words: Lcg64Xsh32,
    made: u32,
}

impl Plan {
    /// The place before the first step.
    pub fn first_step(&self) -> StepCursor
        ensures made { result.made ≡ 0 }
        ensures given { HasGiven self.now.steps result }
    {
        match &self.steps {
            Steps::List(_) => StepCursor {
                words: generator(0),
                made: 0,
            },
            Steps::Seed { seed, .. } => StepCursor {
                words: generator(*seed),
                made: 0,
            },
        }
    }

    /// Returns the next step and advances the cursor: the step that [`Plan::step_at`] returns.
    pub fn next_step(&self, cursor: &mut StepCursor) -> Step
        requires left { cursor.old.made < step_count self.now }
        requires given { HasGiven self.now.steps cursor.old }
        ensures step { nth_step self.now cursor.old.made ≡ Some result }
        ensures within { step_is_within (sizes_of self.now) result ≡ true }
        ensures given { HasGiven self.now.steps cursor.new }
        ensures made { cursor.new.made ≡ cursor.old.made + 1 }
    {
        let i = cursor.made;
        cursor.made = i + 1;
        match &self.steps {
            Steps::List(list) => list.as_slice()[i as usize],
            Steps::Seed { seed, count } => {
                let word = next_word(&mut cursor.words, *seed, i);
                if i < *count {
                    seeded_step(self.sizes(), word)
                } else {
                    Step::Sweep
                }
            }
        }
    }
}
