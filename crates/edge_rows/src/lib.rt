//! Whether many spots are inside one list of edges.
//!
//! The edges are laid out once. Then a spot is tested without going over them all.
#![tactic(auto)]

mod asking;
mod bank;
mod cutting;
mod laying;
mod piece;
mod row;
mod rows;
mod sides;
mod sorting;

pub use rows::EdgeRows;

#[cfg(test)]
mod tests;
