//! A key with a lookup table, for many hashes.
ghost use Rattle.std.specs.Prelude.{◌≡◌, ◌<◌, ◌≤◌, length, IfOk};
ghost use Rattle.toeplitz.specs.Tables.{word_of, IsTable};
ghost use Rattle.toeplitz.specs.Flows.{hash_of_flow};

use crate::key::Key;
use crate::kinds::Kinds;
use crate::words::Words;
use std::alloc::Global;
use std::marker::Model;
use steer_base::{Flow, OutOfMemory};

// A row for each index of an input byte.
const ROWS: usize = 36;

// A word for each byte in a row.
const ROW: usize = 256;

/// A key with a lookup table of 36 rows of 256 words (36 KiB), so that a hash takes one XOR for
/// each byte of its input.
#[derive(Drop)]
pub struct TabledKey {
    key: Key,
    words: Vec<u32>,
}

impl Model for TabledKey {
    ghost use Rattle.std.specs.Prelude.{ℕ};
    ghost use Rattle.toeplitz.specs.Tables.{IsTable};

    ghost Value = { ℕ };

    ghost view = { λ tabled. tabled.key };

    ghost invariant = { λ tabled. IsTable tabled.key tabled.words.items };
}

impl TabledKey {
    /// Builds the table of a key.
    pub fn make(alloc: Global, key: &Key) -> Result<Self, OutOfMemory>
        ensures { IfOk result (λ tabled. tabled ≡ key.now) }
    {
        let words = table(alloc, key)?;
        Ok(TabledKey {
            key: key.copied(),
            words,
        })
    }

    /// The hash of a flow, the same as [`Key::hash`].
    pub fn hash(&self, flow: &Flow, kinds: Kinds) -> Option<u32>
        ensures { result ≡ hash_of_flow self.now flow.now kinds.0 }
    {
        self.hash_flow(flow, kinds)
    }
}

impl Words for TabledKey {
    ghost key = { λ tabled. tabled };

    fn word(&self, place: usize, byte: u8) -> u32
        requires { place < 36 }
        ensures { result ≡ word_of self.now place byte }
    {
        self.words[ROW * place + usize::from(byte)]
    }
}

// The rows of a key, one after another.
fn table(alloc: Global, key: &Key) -> Result<Vec<u32>, OutOfMemory>
    ensures { IfOk result (λ words. IsTable key.now words.items) }
{
    let mut words = Vec::with_capacity(alloc, ROWS * ROW)?;
    for at in 0..ROWS * ROW {
        words.push(key.word(at / ROW, (at % ROW) as u8))?;
    }
    Ok(words)
}
