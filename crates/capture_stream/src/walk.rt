//! A walk over the records of a capture file, of which only a window is there.
ghost use Rattle.std.specs.Prelude.{ℕ, List};
ghost use Rattle.capture_stream.specs.Walks.{Finds, GoesOn, MayWalk};

use crate::fault::StreamFault;

/// What a window begins with.
#[derive(Clone, Copy, Debug, PartialEq, Eq)]
pub enum Next {
    /// A record of `size` bytes, whose frame has `len` bytes from offset `start` of the window on.
    Frame {
        start: usize,
        len: usize,
        size: usize,
    },
    /// `size` bytes without a frame.
    Other {
        size: usize,
    },
    /// Nothing, or the beginning of a record that is not complete.
    Incomplete,
}

/// Walks over the records of a capture format.
pub trait Walk {
    // The walker has passed these bytes, which have these frames, up to this rest.
    ghost passed: { Self → List ℕ → List (List ℕ) → List ℕ → Type 0 };

    /// What the window begins with, and moves past it if it is complete.
    fn next(&mut self, window: &[u8]) -> Result<Next, StreamFault>
        requires { MayWalk passed self.old window.now }
        ensures { Finds passed self.old window.now result self.new };

    /// Lemma: bytes that follow are part of the rest.
    fn goes_on(&self)
        ensures { GoesOn passed self.now };
}
