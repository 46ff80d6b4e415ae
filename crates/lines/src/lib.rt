//! Text lines of orders and stops, written onto a lent page.
#![tactic(auto)]

mod digits;
mod instants;
pub mod order_lines;
mod put;
pub mod refusal;
pub mod stop_lines;
mod vessels;
