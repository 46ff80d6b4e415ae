//! A whole radio watch: reading a script of what happened, doing it on a call sheet, and reporting on it.
#![tactic(auto)]

pub mod entry;
pub mod journal;
pub mod report;
pub mod script;
pub mod watch;
