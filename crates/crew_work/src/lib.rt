//! Jobs in numbered pieces, and crews that run them.
#![tactic(auto)]

mod alone;
mod work;

pub use alone::Alone;
pub use work::{Crew, Job, runs_law};

#[cfg(test)]
mod tests;
