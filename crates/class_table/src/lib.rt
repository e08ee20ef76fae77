//! The class table: the classes with their names and thresholds, the distances between them, and the weight of borders.
#![tactic(auto)]

mod draft;
mod fault;
mod laws;
mod line;
mod name;
mod number;
mod reader;
mod table;

pub use fault::{TableFault, Why};
pub use laws::{one_fault, one_table, right_lines, table_or_fault, table_without_fault};
pub use reader::read;
pub use table::Table;

#[cfg(test)]
mod tests;
