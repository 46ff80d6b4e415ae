//! The order board: the vessels on a waterway, kept in order while the clock moves, over any kinetic structure and any
//! event queue.

#![tactic(auto)]

pub mod board;
pub mod call;
mod calls;
mod claim;
mod courses;
pub mod list;
mod list_questions;
mod passing;
mod perform;
mod questions;
pub mod refusal;
mod refusals;
pub mod tickets;
