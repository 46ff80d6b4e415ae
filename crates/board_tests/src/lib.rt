//! Examples of boards: tables of calls, done over the sorted list and the tournament and over both heaps.

#![tactic(auto)]

#[cfg(test)]
mod examples;
#[cfg(test)]
mod meetings;
#[cfg(test)]
mod refusals;
