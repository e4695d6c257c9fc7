//! Lemmas about the hash of a flow, each the contract of a function with an empty body.
ghost use Rattle.std.specs.Prelude.{◌≡◌, ℕ, is_some};
ghost use Rattle.toeplitz.specs.Flows.{hash_of_flow, has_kind};
ghost use Rattle.steer_base.specs.declared.flow.Flow.{Flow};

/// Lemma: a flow has a hash if and only if a kind that applies to it is enabled, whatever the key.
pub fn a_hash_needs_a_kind()
    ensures { (key : ℕ) (flow : Flow) (kinds : ℕ) → is_some (hash_of_flow key flow kinds) ≡ has_kind
        flow kinds }
{}
