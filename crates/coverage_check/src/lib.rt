//! Whether a coverage is planar and disjoint, over all rational points.
#![tactic(auto)]

mod beside;
mod border;
mod bordering;
mod checked;
mod cover;
mod crossing;
mod distinct;
mod fault;
mod heights;
mod kept;
mod laws;
mod overlap;
mod shared;
mod span;
mod strip;
mod usage;
mod walk;

pub use checked::Checked;
pub use cover::check;
pub use fault::CoverFault;
pub use laws::{odd_law, one_fault_law};

#[cfg(test)]
mod tests;
