//! The judge of certificates: whether a certificate and a drawn map hold for a problem, and what is wrong with them first.
//!
//! It searches for nothing. It compares edges and texts, walks regions, and adds up the rows of leaves.
#![tactic(auto)]

mod drawing;
mod edges;
mod groups;
mod judging;
mod laws;
mod numbers;
mod proving;
mod stop;
mod verdict;

pub use judging::judge;
pub use laws::{proof_law, verdict_law};
pub use verdict::Verdict;

#[cfg(test)]
mod fixtures;
#[cfg(test)]
mod tests;
