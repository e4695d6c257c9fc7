//! The place of each packet in lists, a word for each.
ghost use Rattle.std.specs.Prelude.{◌≡◌, ◌<◌, IfOk, None, replicate, slice_index_or};
ghost use Rattle.history.specs.Index.{noted};

use std::alloc::Global;
use std::marker::Model;
use steer_base::{OutOfMemory, PacketId};

/// The place of each packet, counted from 1. The first place that is noted for a packet stays.
#[derive(Drop)]
pub struct Places {
    // 0 for a packet without a place.
    words: Vec<u32>,
}

impl Model for Places {
    ghost use Rattle.std.specs.Prelude.{ℕ, List, Option, map};
    ghost use Rattle.history.specs.Index.{place_of_word};

    ghost Value = { List (Option ℕ) };

    ghost view = { λ p. map place_of_word p.words.items };
}

impl Places {
    // So many packets without a place.
    pub(crate) fn empty(alloc: Global, count: usize) -> Result<Places, OutOfMemory>
        ensures { IfOk result (λ p. p ≡ replicate count None) }
    {
        Ok(Places {
            words: zeros(alloc, count)?,
        })
    }

    // Notes the place of a packet that has none yet.
    pub(crate) fn note(&mut self, id: PacketId, place: u32)
        requires { 0 < place }
        ensures { self.new ≡ noted self.old id place }
    {
        let at = id.0 as usize;
        if at < self.words.len() && self.words[at] == 0 {
            self.words[at] = place;
        }
    }

    /// The place that was noted for a packet.
    pub fn get(&self, id: PacketId) -> Option<u32>
        ensures { result ≡ slice_index_or self.now id None }
    {
        let at = id.0 as usize;
        if at >= self.words.len() {
            return None;
        }
        match self.words[at] {
            0 => None,
            place => Some(place),
        }
    }
}

// So many zeros.
fn zeros(alloc: Global, count: usize) -> Result<Vec<u32>, OutOfMemory>
    ensures { IfOk result (λ zeros. zeros.items ≡ replicate count 0) }
{
    Ok(Vec::from_elem(alloc, 0, count)?)
}
