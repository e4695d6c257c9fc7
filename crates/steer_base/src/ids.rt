//! The numbers by which packets, processors, queues and applications are named. Contracts see each
//! as a number.
ghost use Rattle.std.specs.Prelude.{ℕ};

use std::marker::Model;

/// A packet, by its place in the capture, from 0.
#[derive(Clone, Copy, Debug, PartialEq, Eq)]
pub struct PacketId(pub u32);

impl Model for PacketId {
    ghost Value = { ℕ };

    ghost view = { λ p. p.0 };

    ghost inverse = { λ n. record { 0 = n } };
}

/// A processor, from 0 to 31.
#[derive(Clone, Copy, Debug, PartialEq, Eq)]
pub struct Cpu(pub u8);

impl Model for Cpu {
    ghost Value = { ℕ };

    ghost view = { λ c. c.0 };

    ghost inverse = { λ n. record { 0 = n } };
}

/// A receive queue, from 0 to 15.
#[derive(Clone, Copy, Debug, PartialEq, Eq)]
pub struct RxQueue(pub u8);

impl Model for RxQueue {
    ghost Value = { ℕ };

    ghost view = { λ q. q.0 };

    ghost inverse = { λ n. record { 0 = n } };
}

/// A transmit queue, from 0 to 31.
#[derive(Clone, Copy, Debug, PartialEq, Eq)]
pub struct TxQueue(pub u8);

impl Model for TxQueue {
    ghost Value = { ℕ };

    ghost view = { λ t. t.0 };

    ghost inverse = { λ n. record { 0 = n } };
}

/// An application, from 0 to 31.
#[derive(Clone, Copy, Debug, PartialEq, Eq)]
pub struct AppId(pub u8);

impl Model for AppId {
    ghost Value = { ℕ };

    ghost view = { λ a. a.0 };

    ghost inverse = { λ n. record { 0 = n } };
}
