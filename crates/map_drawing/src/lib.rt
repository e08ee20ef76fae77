//! The written map of a grouping: every region as the exact union of its areas.
#![tactic(auto)]

mod drawing;

pub use drawing::draw;

#[cfg(test)]
mod tests;
