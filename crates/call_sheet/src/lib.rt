//! The call sheet of a radio watch: for some lines the second at which each is awaited, over any event queue.
#![tactic(auto)]

pub mod call;
pub mod refusal;
pub mod sheet;
