//! Drawn maps as texts of TopoJSON.
#![tactic(auto)]

mod geometry;
mod position;
mod writer;

pub use writer::text;

#[cfg(test)]
mod tests;
