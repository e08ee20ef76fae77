//! Bounds near the linear relaxation with its escape rows, by first-order steps in whole numbers.
//!
//! The relaxation gives each area a fraction of each class. A flow along a link stands for border rows and a price for an escape row; what they
//! leave of the cost of an area's cheapest class is summed to the bound. The steps move fractions down what is left, and flows and prices up
//! where the fractions break their rows; rows of sets of areas are added while the steps run. All numbers are whole and held in a range.
//!
//! Nothing of how good a sum is rests on any of this: what is offered is tested, and where it fails the test the sum without rows is offered.
#![tactic(auto)]

mod ascent;
mod fixed;
mod growth;
mod hints;
mod lists;
mod narrow;
mod net;
mod point;
mod provider;
mod ranges;
mod reduced;
mod relaxation;
mod rows;
mod separation;
mod steps;
mod sums;
mod thinning;

pub use provider::PrimalDual;

#[cfg(test)]
mod tests;
