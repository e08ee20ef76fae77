//! Arcs of rings: a border that two rings share is stored once, and each ring is told as a list of arcs.
#![tactic(auto)]

mod arcs;
mod breaks;
mod chains;
mod loops;
mod nodes;
mod numbers;
mod turning;
mod ways;

pub use arcs::{Arcs, arcs_of};

#[cfg(test)]
mod tests;
