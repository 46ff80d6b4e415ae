//! Examples of boards that are lent few rows or a small queue, or are full, and of the tickets that a queue holds.

#![tactic(auto)]

#[cfg(test)]
mod full;
#[cfg(test)]
mod rows;
#[cfg(test)]
mod small_queues;
#[cfg(test)]
mod tickets;
