//! The replay of a recorded trace on a board over the sorted list.

#![tactic(auto)]

pub mod fault;
mod record;
pub mod replay;
