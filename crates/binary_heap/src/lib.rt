//! An event queue as a binary heap with an index by ticket, in cells that the caller lends.
#![tactic(auto)]

pub mod cell;
pub mod heap;
mod sift;
mod slots;
mod tickets;
