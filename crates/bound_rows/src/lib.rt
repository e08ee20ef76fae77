//! What leaves and trees prove: domains, sums of rows, single classes, and who offers sums.
//!
//! The root's domains come from `Domains::whole` alone. What a leaf is worth holds of every feasible grouping inside its domains, and what a
//! tree is worth of every one inside the root's.
#![tactic(auto)]

mod area_marks;
mod better;
mod domains;
mod leaf;
mod numbers;
mod proof;
mod provider;
mod scratch;
mod sizes;
mod sums;
mod ways;

pub use better::Better;
pub use domains::Domains;
pub use proof::{LeafProof, tree_law};
pub use provider::{BoundProvider, Plain};
pub use row_laws::{
    Bound, Entry, Leaf, Row, RowSum, Set, Tree, Unsound, Weak, depth, fixed_law, row_law, splits,
    sum_law,
};
pub use scratch::Scratch;
pub use sizes::marks;
