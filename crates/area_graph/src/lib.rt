//! The problem of a checked map and a class table: what its areas weigh, which of them are linked, and how long their common borders are.
#![tactic(auto)]

mod borders;
mod fault;
mod graph;
mod laws;
mod lengths;
mod owners;
mod pair;
mod weights;

pub use fault::GraphFault;
pub use graph::problem_of;
pub use laws::{
    light_law, one_light_law, one_problem_law, one_unknown_law, unknown_law, unknown_not_light_law,
};

#[cfg(test)]
mod tests;
