//! Exact planar geometry over rational points.
#![tactic(auto)]

mod area;
mod bounds;
mod coverage;
mod edge;
mod frame;
mod laws;
mod level;
mod making;
mod meeting;
mod middle;
mod odd_edges;
mod point;
mod rings;
mod sight;
mod spot;
mod wide;

pub use area::Area;
pub use coverage::Coverage;
pub use edge::Edge;
pub use frame::{Frame, Limit};
pub use laws::spelling_law;
pub use level::are_equal;
pub use meeting::{lowest, meet, spot_along};
pub use odd_edges::{odd, odd_of};
pub use point::Point;
pub use rings::{steps_of_ring, steps_of_rings};
pub use sight::{inside, is_crossed, on};
pub use spot::Spot;
pub use wide::{gap, minor, scale, sum, sum_of_products};

#[cfg(test)]
mod tests;
