//! Branch and bound: the best grouping that is found, and a tree of splits whose leaves prove a bound of all others.
#![tactic(auto)]

mod answer;
mod beside;
mod closest;
mod components;
mod growth;
mod halves;
mod hopeless;
mod lists;
mod outcome;
mod pairs;
mod rests;
mod search;
mod tips;
mod tries;
mod values;

pub use answer::solve;
pub use outcome::{Kind, Outcome};

#[cfg(test)]
mod tests;
