//! What areas are worth that have one class each.
#![tactic(auto)]

mod components;
mod costs;
mod laws;
mod room;
mod tallies;
mod value;

pub use laws::component_law;
pub use room::Room;
pub use value::fixed_value;
