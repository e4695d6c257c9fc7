//! What all threads of a run share beside their boards.
use hint_words::Hints;
use steer_model::Given;

/// What all threads of a run share beside their boards.
#[derive(Drop)]
pub struct Shared {
    /// The words that are loaded and stored without a gate.
    pub hints: Hints,
    /// What the plan and the capture fix.
    pub given: Given,
    /// The number of filters, at most `MAX_PLAN_FILTERS`.
    pub filters: u32,
}
