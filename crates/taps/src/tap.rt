//! The trait of taps, and the text that a tap produces.
ghost use Rattle.std.specs.Prelude.{◌≡◌, List, ℕ, [], ◌∷◌, IfOk, OnOk, OnErr};
ghost use Rattle.history.specs.declared.packet_line.PacketLine.{PacketLine};

use history::PacketLine;
use std::marker::Model;
use steer_base::OutOfMemory;

/// The text of a tap. Contracts see it as its list of bytes.
#[derive(Drop)]
pub struct TapText {
    pub bytes: Vec<u8>,
}

impl Model for TapText {
    ghost Value = { List ℕ };

    ghost view = { λ t. t.bytes.items };
}

/// An observer of the packets of a history. Contracts see it as a function: for each list of
/// further lines, the text that it would produce after them.
pub trait Tap: Drop {
    /// The text that the tap would produce after these further lines.
    ghost text: { Self → List PacketLine → List ℕ };

    /// Shows the tap the next line.
    fn note(&mut self, line: &PacketLine) -> Result<(), OutOfMemory>
        ensures noted { OnOk result
            ((lines : List PacketLine) → text self.new lines ≡ text self.old (line.now ∷ lines)) }
        ensures kept { OnErr result
            ((lines : List PacketLine) → text self.new lines ≡ text self.old lines) };

    /// Returns the text, with no further line to come.
    fn finish(&mut self) -> Result<TapText, OutOfMemory>
        ensures finished { IfOk result (λ t. t ≡ text self.old []) }
        ensures kept { OnErr result
            ((lines : List PacketLine) → text self.new lines ≡ text self.old lines) };
}
