//! Examples of the same calls on two boards side by side, over two structures or over two queues.

#![tactic(auto)]

#[cfg(test)]
mod draws;
#[cfg(test)]
mod foremost;
#[cfg(test)]
mod side_by_side;
