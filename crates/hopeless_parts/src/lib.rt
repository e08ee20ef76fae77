//! The part of a problem that no region can cover, and the sum of rows that proves it.
#![tactic(auto)]

mod parts;
mod sums;

pub use parts::part_of;
pub use sums::void_leaf;
