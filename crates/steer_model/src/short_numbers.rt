//! The numbers of flows without IPv6 addresses.
ghost use Rattle.std.specs.Prelude.{◌≡◌, ◌<◌, ◌^◌, [], IfOk};
ghost use Rattle.std.specs.BTreeMap.{btree_map_len};
ghost use Rattle.steer_model.specs.Capture.NumberMaps.{IsNumberAt};
ghost use Rattle.steer_model.specs.Capture.ShortNumbers.{short_order};

use crate::flow_key::ShortKey;
use crate::guesses::Guesses;
use crate::number_maps::number_at;
use std::alloc::Global;
use std::collections::BTreeMap;
use std::marker::Model;
use steer_base::OutOfMemory;

/// The numbers of keys, as contracts see them.
#[derive(Drop)]
pub struct NumberMap {
    /// The number of each key that has one.
    pub by_key: BTreeMap<ShortKey, u32>,
}

/// The numbers of flows without IPv6 addresses, by their keys. They are guessed first, and the map,
/// which has them all, is asked where the guess is of another key.
#[derive(Drop)]
pub struct ShortNumbers {
    numbers: NumberMap,
    guesses: Guesses,
}

impl Model for ShortNumbers {
    ghost use Rattle.steer_model.specs.Capture.ShortNumbers.{AreListed};
    ghost use Rattle.steer_model.specs.contracts.short_numbers.NumberMap.{the_row};
    ghost use Rattle.steer_model.specs.declared.short_numbers.NumberMap.{NumberMap};

    ghost Value = { NumberMap };

    ghost coded = { the_row.coded };

    ghost view = { λ s. s.numbers };

    ghost invariant = { λ s. AreListed s.numbers.by_key s.guesses.keys.items };
}

impl ShortNumbers {
    /// No keys.
    pub fn new(alloc: Global) -> ShortNumbers
        ensures { result.by_key.entries ≡ [] }
    {
        ShortNumbers {
            numbers: NumberMap {
                by_key: BTreeMap::new(alloc),
            },
            guesses: Guesses::new(alloc),
        }
    }

    /// How many keys have a number.
    pub fn len(&self) -> usize
        ensures len { result ≡ btree_map_len self.now.by_key }
        ensures small { result < 2 ^ 63 }
    {
        self.numbers.by_key.len()
    }

    /// The number of a key: the one that it has, else the next one.
    pub fn number_of(&mut self, key: ShortKey, next: u32) -> Result<u32, OutOfMemory>
        ensures { IfOk result (λ number.
            IsNumberAt short_order self.old.by_key self.new.by_key key next number) }
    {
        if let Some(number) = self.guesses.find(key) {
            return Ok(number);
        }
        let number = number_at(&mut self.numbers.by_key, key, next)?;
        self.guesses.note(key, number)?;
        Ok(number)
    }
}
