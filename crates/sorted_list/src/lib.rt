//! A kinetic sorted list: the courses from rear to front, which a mend keeps right by exchanging two neighbours.

#![tactic(auto)]

mod edits;
pub mod list;
pub mod places;
pub mod questions;
pub mod structure;
