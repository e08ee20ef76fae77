//! Maps as GeoJSON (RFC 7946): which values of JSON spell which areas, and the first rule that a value breaks.
//!
//! `SpellsFeatures` of `specs/Collections.antt` says that a value of JSON is a collection of features with these areas;
//! `IsFirstFault` of `specs/Faults.antt` says which rule it breaks first. A value spells one map or has one first fault.
//!
//! Of GeoJSON this is read: coordinates that are whole numbers within 2^30 of 0; the geometries Polygon and
//! MultiPolygon of the features of a collection, each one area with all its rings, which are closed; and as an area's
//! class a text of 1 to 100 bytes or a whole number of 64 bits. There are at most 65,536 areas with 2,097,152 steps
//! together. Features whose geometry is null or absent are passed over and counted.
#![tactic(auto)]

mod fault;
mod feature;
mod laws;
mod outline;
mod reader;
mod ring;

pub use fault::GeoFault;
pub use laws::{layer_or_fault, layer_without_fault, one_fault, one_layer};
pub use reader::read;

#[cfg(test)]
mod tests;
