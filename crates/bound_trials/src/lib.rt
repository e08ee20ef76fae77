//! Trials of the bounds: worked rows and trees, and a leaf of another kind.
#![tactic(auto)]

mod nothing;

pub use nothing::Nothing;

#[cfg(test)]
mod fixtures;
#[cfg(test)]
mod leaves;
#[cfg(test)]
mod sums;
#[cfg(test)]
mod trees;
