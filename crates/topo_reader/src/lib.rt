//! Maps as TopoJSON 1.0: which values of JSON spell which areas, and their reader.
//!
//! `SpellsTopology` of `specs/Topology.antt` says that a value of JSON is a topology whose picked object has these
//! areas. What is written as TopoJSON and what is read from it are both measured against it. `IsFirstFault` of
//! `specs/Faults.antt` names the first rule that a value breaks. A value spells one map or has one first fault.
//!
//! Of TopoJSON this is read: coordinates that are whole numbers within 2^30 of 0, after the transform's sums; a
//! transform, whose four numbers keep their characters; the geometries Polygon and MultiPolygon of the picked object,
//! each one area; and as an area's class a text of 1 to 100 bytes or a whole number of 64 bits. There are at most 65,536
//! areas with 2,097,152 steps together. Geometries that are null, or whose type is null, are passed over and counted.
#![tactic(auto)]

mod arcs;
mod fault;
mod head;
mod laws;
mod paths;
mod pick;
mod place;
mod reader;
mod rings;

pub use fault::TopoFault;
pub use laws::{layer_or_fault, layer_without_fault, one_fault, one_layer_law};
pub use pick::Pick;
pub use reader::read;

#[cfg(test)]
mod tests;
