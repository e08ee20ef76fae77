//! The border edges of the regions of a grouping.
//!
//! An edge is a border edge of a region where it is odd in an odd number of the region's areas. What lies within the border edges is
//! exactly what lies within the areas.
#![tactic(auto)]

mod gathering;
mod laws;
mod regions;
mod sweeping;

pub use laws::{drawn_law, point_sets_law};
pub use regions::borders;

#[cfg(test)]
mod tests;
