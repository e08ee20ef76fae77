//! A first grouping: what a search finds from one region for each part of a problem, with the class that is open there at the least
//! recolouring. And better groupings than a known one, from classes that a caller wants.
#![tactic(auto)]

mod better;
mod choices;
mod laws;
mod orders;
mod starts;

pub use better::cheaper_from;
pub use laws::{hopeless_law, one_each_law, parts_law};
pub use starts::{StartFault, start};

#[cfg(test)]
mod tests;
