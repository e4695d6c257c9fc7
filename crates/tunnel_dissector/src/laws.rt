//! Lemmas about tunnels, each the contract of a function with an empty body.
ghost use Rattle.tunnel_dissector.specs.Laws.{IsOneLevelMore, HasFewLevels};

/// Lemma: what `put_vxlan` appends for a frame that has an inner flow, and a depth below four, has
/// that inner flow and a depth greater by 1. No depth is above four.
pub fn a_tunnel_is_one_level_more()
    ensures more { IsOneLevelMore }
    ensures few { HasFewLevels }
{}
