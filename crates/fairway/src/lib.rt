//! The arithmetic of a waterway: instants, courses, who is behind whom and when two draw level, and the order of all.
#![tactic(auto)]

pub mod course;
pub mod euclid;
pub mod example;
pub mod instant;
pub mod order;
pub mod pair;
pub mod refusal;
pub mod stamp;
