//! Guesses at the numbers of keys.
ghost use Rattle.std.specs.Prelude.{◌≡◌, [], IfSome, Some, true};
ghost use Rattle.steer_model.specs.Capture.Guesses.{AddsKey, key_at};

use crate::flow_key::ShortKey;
use std::alloc::Global;
use steer_base::OutOfMemory;

// The number of places, from the first note on.
const PLACES: usize = 1 << 17;

/// Guesses at the numbers of keys. The keys are spread over 131,072 places, and the guess for a key
/// is the number that was noted last for one at its place. Numbers from 65,536 on are not noted.
#[derive(Drop)]
pub struct Guesses {
    /// The key that was noted with a number, by that number.
    pub keys: Vec<Option<ShortKey>>,
    // The number that was noted last, by the place of its key.
    last: Vec<u16>,
}

impl Guesses {
    /// Nothing is noted, and no memory is taken.
    pub fn new(alloc: Global) -> Guesses
        ensures { result.keys.items ≡ [] }
    {
        Guesses {
            keys: Vec::new(alloc),
            last: Vec::new(alloc),
        }
    }

    /// The guess for a key, if that number was noted with this very key.
    pub fn find(&self, key: ShortKey) -> Option<u32>
        ensures { IfSome result (λ number. key_at self.now.keys.items number ≡ Some key) }
    {
        let number = *self.last.get(place_of(key))?;
        if is_key(self.keys.get(usize::from(number))?, key) {
            return Some(u32::from(number));
        }
        None
    }

    /// Notes the number of a key. If the key is new, its number is to be greater than all that were
    /// noted; otherwise it may never be found.
    pub fn note(&mut self, key: ShortKey, number: u32) -> Result<(), OutOfMemory>
        ensures { AddsKey self.old.keys.items self.new.keys.items key number }
    {
        match u16::try_from(number) {
            Ok(number) => {
                set_last(&mut self.last, key, number)?;
                add_key(&mut self.keys, key, number)
            }
            Err(_) => Ok(()),
        }
    }
}

// Writes the number at the place of its key.
fn set_last(last: &mut Vec<u16>, key: ShortKey, number: u16) -> Result<(), OutOfMemory> {
    if last.is_empty() {
        last.resize(PLACES, 0)?;
    }
    if let Some(last) = last.get_mut(place_of(key)) {
        *last = number;
    }
    Ok(())
}

// Lists a key by its number, unless the list has that number already.
fn add_key(keys: &mut Vec<Option<ShortKey>>, key: ShortKey, number: u16) -> Result<(), OutOfMemory>
    ensures { AddsKey keys.old.items keys.new.items key number }
{
    let number = usize::from(number);
    if keys.len() <= number {
        keys.resize(number, None)?;
        keys.push(Some(key))?;
    }
    Ok(())
}

// Whether a key is there and is this one.
fn is_key(known: &Option<ShortKey>, key: ShortKey) -> bool
    ensures { result ≡ true → known.now ≡ Some key }
{
    match known {
        Some(known) => *known == key,
        None => false,
    }
}

// The place of a key: 17 bits, into which all bits of the key are mixed.
fn place_of(key: ShortKey) -> usize {
    const MIX: u64 = 0x9E37_79B9_7F4A_7C15;
    ((key.head.wrapping_mul(MIX) ^ key.addresses).wrapping_mul(MIX) >> 47) as usize
}
