//! What the examples of boards share: boards over lent memory, calls in short, and what is told of them in numbers.

#![tactic(auto)]

pub mod boards;
pub mod calls;
pub mod crowd;
pub mod told;
