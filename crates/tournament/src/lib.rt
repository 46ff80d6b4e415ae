//! The kinetic tournament: matches between at most 64 vessels, whose winner is the foremost.
#![tactic(auto)]

mod changes;
mod loads;
mod matches;
mod places;
mod questions;
pub mod structure;
pub mod tournament;
