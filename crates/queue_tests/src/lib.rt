//! Examples of what the event queues and the call sheet answer, and of what a caller's cells keep.
#![tactic(auto)]

#[cfg(test)]
mod heap;
mod lent;
#[cfg(test)]
mod sheet;
mod tidy;
