//! The steps of a plan: their texts, those of a seed, and the commands among them.

pub mod commands;
pub mod cursor;
pub mod cut;
pub mod reading;
pub mod seeds;
pub mod set;
pub mod text;
pub mod words;
