//! What takes the frames of a capture, one after another.
ghost use Rattle.std.specs.Prelude.{◌<◌, ◌^◌, ℕ, List, length, OnOk};
ghost use Rattle.pcap_reader.specs.FrameSinks.{HasRoom, TakesOne};

use steer_base::OutOfMemory;

/// Takes the frames of a capture, in the order of its records.
pub trait FrameSink {
    // The first sink, once it has taken these frames one after another, is the second.
    ghost takes: { Self → List (List ℕ) → Self → Type 0 };

    /// Takes the next frame, after fewer than `MAX_PACKETS` others. A frame has fewer than 2^32
    /// bytes.
    fn take(&mut self, frame: &[u8]) -> Result<(), OutOfMemory>
        requires room { HasRoom takes self.old }
        requires small { length frame.now < 2 ^ 32 }
        ensures { OnOk result (TakesOne takes self.old frame.now self.new) };
}
