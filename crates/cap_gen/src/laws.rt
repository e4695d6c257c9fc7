//! Lemmas about generated frames, each the contract of a function with an empty body.
ghost use Rattle.std.specs.Prelude.{ℕ, ◌<◌};
ghost use Rattle.cap_gen.specs.Flows.{FrameIsOfFlow};
ghost use Rattle.cap_gen.specs.Captures.{HasItsFrames};
ghost use Rattle.cap_gen.specs.declared.frame.TheConstants.{MAX_FLOWS};

/// Lemma: the frame of a generated flow is dissected as TCP over IPv4, from the address and the
/// port of that flow to port 80 of 10.128.0.1.
pub fn a_frame_is_of_its_flow()
    ensures { (flow : ℕ) → flow < MAX_FLOWS → FrameIsOfFlow flow }
{}

/// Lemma: the bytes of a generated capture, of at most `MAX_PACKETS` packets, have the capture with
/// exactly their times and nothing truncated, and the frames of its records are those that
/// `generate_frames` hands on.
pub fn a_generated_capture_has_its_frames()
    ensures { HasItsFrames }
{}
