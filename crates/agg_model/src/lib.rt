//! The problem, its groupings, which are feasible, what they cost, and the parts that links join.
#![tactic(auto)]

mod costs;
mod feasibility;
mod grouping;
mod part_sets;
mod problem;
mod rules;
mod tallies;
mod tops;

pub use costs::{cost, cost_law, recolour};
pub use feasibility::{Lack, feasible, lack_law};
pub use grouping::{Grouping, numbered};
pub use part_sets::parts;
pub use problem::{Link, Problem, ProblemParts};

#[cfg(test)]
mod tests;
