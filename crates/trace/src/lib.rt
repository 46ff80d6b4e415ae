#![tactic(auto)]

pub mod fault;
pub mod reader;
pub mod reading;
pub mod records;
pub mod whole;
pub mod writing;
