//! Maps as ESRI ASCII grids: a coverage whose areas are the patches of equal cells.
#![tactic(auto)]

mod areas;
mod body;
mod cells;
mod coverage;
mod draft;
mod fault;
mod grid;
mod header;
mod laws;
mod members;
mod number;
mod patches;
mod reader;
mod rings;
mod whole;

pub use fault::GridFault;
pub use laws::{frame_law, grid_or_fault, grid_without_fault, one_fault, one_grid};
pub use reader::read;

#[cfg(test)]
mod tests;
