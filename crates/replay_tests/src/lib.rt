//! Examples of replays, run over both heaps, and of the worked meetings, performed on a board.

#![tactic(auto)]

#[cfg(test)]
mod answers;
#[cfg(test)]
mod crowds;
#[cfg(test)]
mod examples;
#[cfg(test)]
mod faults;
#[cfg(test)]
mod headers;
#[cfg(test)]
mod pages;
#[cfg(test)]
mod refusals;
#[cfg(test)]
mod rows;
#[cfg(test)]
mod worked;
#[cfg(test)]
mod worked_meetings;
