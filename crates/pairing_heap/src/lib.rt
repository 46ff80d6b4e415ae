//! An event queue as a pairing heap, in cells that the caller lends.
#![tactic(auto)]

mod cut;
pub mod heap;
mod links;
mod meld;
pub mod node;
mod tickets;
