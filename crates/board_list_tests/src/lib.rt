//! Examples of what a board over the sorted list answers: the order, its vessels, and 64 that all pass each other.

#![tactic(auto)]

#[cfg(test)]
mod positions;
#[cfg(test)]
mod sixty_four;
