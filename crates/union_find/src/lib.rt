//! Sets of members that pairs join, each led by its least member.
#![tactic(auto)]

mod forest;
mod steps;

pub use forest::{Forest, sets_law};

#[cfg(test)]
mod tests;
