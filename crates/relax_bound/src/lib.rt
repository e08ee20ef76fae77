//! Bounds by dual ascent in whole numbers.
//!
//! A climb begins with the sum without rows. It takes a border row, or an escape row of one area, that gives a greater total, as far as each unit
//! of its multiplier helps, and ends where no such row is left, where the total is 2^110 or more, or where there may be no row more.
//!
//! A row raises one choice alone, and helps only where that is the cheapest choice of its area. So an area is asked for the row of its cheapest
//! class, and how far the row helps is the least of a few numbers that are kept. One round looks at each area and at each side of each link once,
//! in time that grows as areas times classes and links do; a row that is taken costs as much again as its area has classes and links. What a row
//! may still give never grows while others are taken, so a second round finds nothing: that it does is not proved, and where it did not, there
//! would be more rounds, of which each takes a row. There are at most 16 times as many rows as areas.
#![tactic(auto)]

mod climb;
mod leads;
mod left;
mod levels;
mod provider;
mod rounds;
mod starts;
mod tips;
mod visits;

pub use provider::{Ascent, ascent_law};

#[cfg(test)]
mod tests;
