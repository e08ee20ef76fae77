//! A search for feasible groupings of low cost. Its state is one class for each area; a region is a set of areas of one class that links
//! join. The search frees a small window of areas, makes the regions round it feasible again at the least price that it finds, and keeps
//! what costs no more. It begins from the own classes, or from classes that the caller wants.
//!
//! Nothing of how it searches is promised: what it is about to answer is tested, and where it fails the test the answer is the grouping
//! that was given.
#![tactic(auto)]

mod annexes;
mod answers;
mod choices;
mod descent;
mod explorer;
mod growth;
mod joins;
mod lists;
mod marks;
mod net;
mod numbers;
mod options;
mod pairs;
mod repairs;
mod searcher;
mod state;
mod tally;
mod turns;

pub use answers::{search, search_near};

#[cfg(test)]
mod tests;
