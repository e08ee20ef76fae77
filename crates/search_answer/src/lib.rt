//! The answer to a problem: what a search found, with the tree that proves its bound, or that nothing is feasible.
#![tactic(auto)]

mod answer;
mod statable;

pub use answer::search_answer;

#[cfg(test)]
mod tests;
