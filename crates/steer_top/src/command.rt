//! The commands of the program.
ghost use Rattle.std.specs.Prelude.{◌≤◌};
ghost use Rattle.cap_gen.specs.declared.frame.TheConstants.{MAX_FLOWS};
ghost use Rattle.steer_base.specs.declared.limits.TheConstants.{MAX_PACKETS};

/// A command that needs no threads, with its arguments.
#[derive(Drop)]
pub enum StillCommand<'a> {
    /// The flow, the hash and the queue of each packet of a capture.
    Hash(HashCommand<'a>),
    /// The report of a plan's steps on the packets of a capture.
    Replay(PlanCommand<'a>),
    /// The sums of the replay of generated input.
    Gen(GenCommand),
    /// The verdict on a report of a plan and a capture.
    Check(CheckCommand<'a>),
    /// The same as `hash` by rules, with the rule that matched and the depth of its tunnel.
    Place(PlaceCommand<'a>),
}

/// The command `hash` with its arguments.
#[derive(Drop)]
pub struct HashCommand<'a> {
    /// The name of the capture.
    pub capture: &'a str,
    /// The number of receive queues.
    pub queues: u8,
    /// The hash kinds, a bit each.
    pub kinds: u8,
    ghost some_queue: { 1 ≤ queues },
    ghost few_queues: { queues ≤ 16 },
}

/// A command over a plan and a capture, `replay` or `run`, with its arguments.
#[derive(Drop)]
pub struct PlanCommand<'a> {
    /// The name of the plan.
    pub plan: &'a str,
    /// The name of the capture.
    pub capture: &'a str,
}

/// The command `gen` with its arguments.
#[derive(Drop)]
pub struct GenCommand {
    /// The seed of the input.
    pub seed: u64,
    /// The number of packets.
    pub packets: u32,
    /// The most flows that they may have.
    pub flows: u32,
    ghost few_packets: { packets ≤ MAX_PACKETS },
    ghost some_flow: { 1 ≤ flows },
    ghost few_flows: { flows ≤ MAX_FLOWS },
}

/// The command `check` with its arguments.
#[derive(Drop)]
pub struct CheckCommand<'a> {
    /// The name of the plan.
    pub plan: &'a str,
    /// The name of the capture.
    pub capture: &'a str,
    /// The name of the report.
    pub report: &'a str,
}

/// The command `place` with its arguments.
#[derive(Drop)]
pub struct PlaceCommand<'a> {
    /// The name of the rules.
    pub rules: &'a str,
    /// The name of the capture.
    pub capture: &'a str,
}
