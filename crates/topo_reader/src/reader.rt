// The reader of topologies.
ghost use Rattle.std.specs.Prelude.{◌≡◌, IfOk, IfErr};
ghost use Rattle.agg_base.specs.declared.limits.TheConstants.{TEXT_BYTES};
ghost use Rattle.json_text.specs.Lengths.{AreListsWithin};
ghost use Rattle.json_text.specs.Values.{json_of};
ghost use Rattle.map_values.specs.Layers.{Layer};
ghost use Rattle.topo_reader.specs.Arcs.{is_relative};
ghost use Rattle.topo_reader.specs.Faults.{IsFirstFault, IsFaultOf};
ghost use Rattle.topo_reader.specs.Outcomes.{layer_of, Reads, FailsBy};
ghost use Rattle.topo_reader.specs.Topology.{SpellsTopology};
ghost use Rattle.topo_reader.specs.declared.fault.TopoFault.{TopoFault};

use crate::arcs::read_arcs;
use crate::head::{object_of, places, read_head};
use crate::place::read_places;
use crate::{Pick, TopoFault};
use json_text::Tree;
use plane_edge::{Coverage, Frame};
use std::alloc::Global;

/// The map that a value of JSON spells as TopoJSON 1.0.
///
/// Each geometry of the picked object is one area with all its rings; geometries that are null, or whose type is null, are passed over and
/// counted. The class is the property of the picked name: a text of 1 to 100 bytes, or a whole number of 64 bits, which stands for its
/// decimal spelling. Coordinates are whole numbers, with a transform after its sums; the frame keeps the transform's characters. An index i
/// below 0 is arc -i - 1 taken backwards, and each arc of a ring after the first drops its first position. Of members of one name the last
/// counts, and members that are not named here are passed over.
///
/// A fault is that of the first rule that is broken: `NotTopology`; `NoObject`; for each arc in order `BadArc`, `NotWhole` and
/// `Limit(Coordinate)`; `NotPolygonal` of a collection without geometries; and for each geometry in order `NotPolygonal`, `Limit(Areas)`,
/// `NoClass`, `BadIndex`, `OpenRing` and `Limit(Edges)`.
pub fn read(alloc: Global, tree: &Tree, pick: &Pick) -> Result<Coverage, TopoFault>
    requires { AreListsWithin TEXT_BYTES (json_of tree.now) }
    ensures found { IfOk result (λ c. SpellsTopology (json_of tree.now) pick.now.class pick.now.object (layer_of c)) }
    ensures fault { IfErr result (λ f. IsFaultOf (json_of tree.now) pick.now.class pick.now.object f) }
    ensures spelled { (l : Layer) → SpellsTopology (json_of tree.now) pick.now.class pick.now.object l → Reads l result }
    ensures faulty { (f : TopoFault) → IsFirstFault (json_of tree.now) pick.now.class pick.now.object f → FailsBy f result }
{
    read_layer(alloc, tree, pick)
}

// The same, rule by rule.
fn read_layer(alloc: Global, tree: &Tree, pick: &Pick) -> Result<Coverage, TopoFault>
    requires { AreListsWithin TEXT_BYTES (json_of tree.now) }
    ensures found { IfOk result (λ c. SpellsTopology (json_of tree.now) pick.now.class pick.now.object (layer_of c)) }
    ensures fault { IfErr result (λ f. IsFaultOf (json_of tree.now) pick.now.class pick.now.object f) }
{
    let head = read_head(alloc, tree)?;
    let Some((frame, objects, parts)) = head else {
        return Err(TopoFault::NotTopology);
    };
    let Some(object) = object_of(objects, &pick.object) else {
        return Err(TopoFault::NoObject);
    };
    let arcs = read_arcs(alloc, is_relative(&frame), parts)?;
    let Some(places) = places(object) else {
        return Err(TopoFault::NotPolygonal { place: 0 });
    };
    let (areas, passed) = read_places(alloc, &arcs, pick.class.as_str(), places)?;
    Ok(Coverage {
        areas,
        passed,
        frame,
    })
}

// Whether each position of an arc but the first is told relative to the one before.
fn is_relative(frame: &Frame) -> bool
    ensures { result ≡ is_relative frame.now }
{
    matches!(frame, Frame::Scaled { .. })
}
