#![tactic(auto)]

pub mod convert;
mod line;
pub mod text;
mod words;
