//! Event queues: key kinds, the interface that every queue keeps, and what queues in lent cells share.
#![tactic(auto)]

pub mod cells;
pub mod clear;
pub mod key;
pub mod queue;
pub mod refusal;
