//! The lemma on delivery: order, places and drops in the history of every replay.
ghost use Rattle.steer_properties.specs.Delivery.DeliveryLaws.{ReplaysDeliverInOrder};
ghost use Rattle.steer_properties.specs.Delivery.DeliveryLaws.{RunsDeliverInOrder};

/// Lemma: after any steps that name what the plan has, and after all steps of the plan, each flow
/// of each queue is delivered in order to the inbox of its application, each flow of each
/// application to the port, and each flow from end to end. Each packet and each reply is in one
/// place, and each drop has the cause that its counts and the offers before it give.
pub fn every_replay_delivers_in_order()
    ensures runs { RunsDeliverInOrder }
    ensures replays { ReplaysDeliverInOrder }
{}
