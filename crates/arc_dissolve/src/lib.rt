//! The map of a grouping: one shape for each region, drawn with arcs that neighbours share.
#![tactic(auto)]

mod drawing;
mod edges;
mod extent;
mod groups;
mod heads;
mod numbers;
mod outline;
mod polygons;
mod reach;
mod shapes;
mod shell;
mod shells;
mod slots;
mod winding;

pub use drawing::dissolve;
pub use shapes::{Regions, Shape};

#[cfg(test)]
mod tests;
