//! What the forms of maps as values of JSON have in common: what a map says, the class text among the properties,
//! the two numbers of a position, areas within the limit of steps, and frames whose texts are numbers of JSON.
#![tactic(auto)]

mod area;
mod class;
mod member;
mod position;

pub use area::area_of;
pub use class::class_of;
pub use member::{has_type, is_null, list_of};
pub use position::{numbers_of, whole_of};
