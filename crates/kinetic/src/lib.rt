//! Kinetic structures: the interface of what keeps something about moving vessels right, and what serves every one.
#![tactic(auto)]

pub mod limits;
pub mod numbers;
pub mod refusal;
pub mod settle;
pub mod structure;
