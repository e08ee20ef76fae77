//! The borders of a region as rings, each with the region on its left.
#![tactic(auto)]

mod border;
mod drawing;
mod exit;
mod heading;
mod sides;
mod spoke;
mod turning;
mod walk;
mod way;

pub use drawing::rings_of;

#[cfg(test)]
mod tests;
