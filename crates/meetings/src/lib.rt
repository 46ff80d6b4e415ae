//! Worked meetings of vessels: a table of calls and what comes of them, proved of the plain book.

#![tactic(auto)]

mod lines;
pub mod table;
pub mod told;
