//! What a thread notes of the answers that it gets.
use std::alloc::Global;
use steer_base::{OutOfMemory, PacketId, Put};

/// A packet that was offered to a lane.
#[derive(Drop)]
pub struct Offer {
    pub lane: u8,
    pub id: PacketId,
    pub answer: Put,
}

/// A packet of a lane that was delivered to an out lane, and then retired.
#[derive(Drop)]
pub struct Gift {
    pub lane: u8,
    pub out: u8,
    pub id: PacketId,
    pub place: u32,
}

/// What a visit read: the setting, and the head of its packet's lane.
#[derive(Drop)]
pub struct Reading {
    pub lane: u8,
    pub setting: u64,
    pub head: u32,
}

/// All notes of one thread, in the order in which it made them.
#[derive(Drop)]
pub struct Notes {
    pub offers: Vec<Offer>,
    pub gifts: Vec<Gift>,
    pub readings: Vec<Reading>,
}

impl Notes {
    pub fn make(alloc: Global, room: usize) -> Result<Notes, OutOfMemory> {
        Ok(Notes {
            offers: Vec::with_capacity(alloc, room)?,
            gifts: Vec::with_capacity(alloc, room)?,
            readings: Vec::with_capacity(alloc, room)?,
        })
    }

    /// Notes what a visit read, and what became of its packet.
    pub fn offered(&mut self, reading: Reading, offer: Offer) -> Result<(), OutOfMemory> {
        self.readings.push(reading)?;
        self.offers.push(offer)?;
        Ok(())
    }

    /// Notes a packet that was delivered and retired.
    pub fn given(&mut self, gift: Gift) -> Result<(), OutOfMemory> {
        self.gifts.push(gift)?;
        Ok(())
    }
}
