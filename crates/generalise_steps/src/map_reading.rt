// The map that a text spells in its format, or the line that refuses it.
ghost use Rattle.std.specs.Prelude.{◌≡◌, ◌≤◌, ℕ, List, length, IfOk, IfErr};
ghost use Rattle.json_text.specs.Faults.{IsTextOf, IsFirstFault};
ghost use Rattle.json_text.specs.Lengths.{AreListsWithin};
ghost use Rattle.json_text.specs.Values.{json_of};
ghost use Rattle.json_text.specs.declared.fault.JsonFault.{JsonFault};
ghost use Rattle.topo_reader.specs.Outcomes.{layer_of};
ghost use Rattle.topo_reader.specs.Topology.{SpellsTopology};
ghost use Rattle.geo_reader.specs.Collections.{SpellsFeatures};
ghost use Rattle.generalise_steps.specs.FaultLines.{json_line};
ghost use Rattle.generalise_steps.specs.Halts.{IfRefused};
ghost use Rattle.generalise_steps.specs.MapTexts.{SpellsMap, RefusesMap, RefusesTopology};

use crate::{Format, Halt, map_lines};
use agg_base::Text;
use agg_base::limits::{MAP_BYTES, TEXT_BYTES};
use json_text::Tree;
use plane_edge::Coverage;
use std::alloc::Global;
use topo_reader::Pick;

// The map of a grid.
fn read_grid(alloc: Global, map: &[u8]) -> Result<Coverage, Halt>
    requires { length map.now ≤ MAP_BYTES }
    ensures found { IfOk result (λ c. SpellsMap Format.Grid map.now (layer_of c)) }
    ensures refused { IfErr result (λ h. IfRefused h (RefusesMap Format.Grid map.now)) }
{
    match grid_reader::read(alloc, map) {
        Ok(coverage) => Ok(coverage),
        Err(fault) => Err(Halt::of(map_lines::of_grid(alloc, fault))),
    }
}

// The value of a text of JSON.
fn read_tree(alloc: Global, file: &str, text: &[u8]) -> Result<Tree, Halt>
    requires { length text.now ≤ TEXT_BYTES }
    ensures found { IfOk result (λ tree. IsTextOf text.now (json_of tree)) }
    ensures within { IfOk result (λ tree. AreListsWithin TEXT_BYTES (json_of tree)) }
    ensures refused { IfErr result (λ h. IfRefused h (λ line. (f : JsonFault) × IsFirstFault text.now f × (line ≡ json_line file.now f))) }
{
    match json_text::read(alloc, text) {
        Ok(tree) => Ok(tree),
        Err(fault) => Err(Halt::of(map_lines::of_json(alloc, file, fault))),
    }
}

// The map of a value that is to be a topology.
fn topology_of(alloc: Global, file: &str, tree: &Tree, pick: &Pick) -> Result<Coverage, Halt>
    requires { AreListsWithin TEXT_BYTES (json_of tree.now) }
    ensures found { IfOk result (λ c. SpellsTopology (json_of tree.now) pick.now.class pick.now.object (layer_of c)) }
    ensures refused { (text : List ℕ) → IsTextOf text (json_of tree.now)
        → IfErr result (λ h. IfRefused h (RefusesTopology file.now pick.now text)) }
{
    match topo_reader::read(alloc, tree, pick) {
        Ok(coverage) => Ok(coverage),
        Err(fault) => Err(Halt::of(map_lines::of_topology(alloc, file, fault))),
    }
}

/// The map that a text spells as TopoJSON, or the line that refuses it.
///
/// `Refused` comes exactly where it spells none, and carries the line of the first rule that it breaks: `refused:`, what file it is, the
/// name of the fault and its fields, as in `refused: out NoClass 7`.
pub fn read_topology(alloc: Global, file: &str, text: &[u8], pick: &Pick) -> Result<Coverage, Halt>
    requires { length text.now ≤ TEXT_BYTES }
    ensures found { IfOk result (λ c. SpellsMap (Format.TopoJson pick.now) text.now (layer_of c)) }
    ensures refused { IfErr result (λ h. IfRefused h (RefusesTopology file.now pick.now text.now)) }
{
    let tree = read_tree(alloc, file, text)?;
    topology_of(alloc, file, &tree, pick)
}

// The map of a value that is to be a collection of features.
fn features_of(alloc: Global, tree: &Tree, class: &Text) -> Result<Coverage, Halt>
    requires { AreListsWithin TEXT_BYTES (json_of tree.now) }
    ensures found { IfOk result (λ c. SpellsFeatures (json_of tree.now) class.now (layer_of c)) }
    ensures refused { (map : List ℕ) → IsTextOf map (json_of tree.now)
        → IfErr result (λ h. IfRefused h (RefusesMap (Format.GeoJson class.now) map)) }
{
    match geo_reader::read(alloc, tree, class) {
        Ok(coverage) => Ok(coverage),
        Err(fault) => Err(Halt::of(map_lines::of_features(alloc, fault))),
    }
}

// The map of a text that is to be a collection of features.
fn read_features(alloc: Global, map: &[u8], class: &Text) -> Result<Coverage, Halt>
    requires { length map.now ≤ MAP_BYTES }
    ensures found { IfOk result (λ c. SpellsMap (Format.GeoJson class.now) map.now (layer_of c)) }
    ensures refused { IfErr result (λ h. IfRefused h (RefusesMap (Format.GeoJson class.now) map.now)) }
{
    let tree = read_tree(alloc, "map", map)?;
    features_of(alloc, &tree, class)
}

/// The map that a text spells in that format.
pub(crate) fn read_map(alloc: Global, format: &Format, map: &[u8]) -> Result<Coverage, Halt>
    requires { length map.now ≤ MAP_BYTES }
    ensures found { IfOk result (λ c. SpellsMap format.now map.now (layer_of c)) }
    ensures refused { IfErr result (λ h. IfRefused h (RefusesMap format.now map.now)) }
{
    match format {
        Format::Grid => read_grid(alloc, map),
        Format::TopoJson(pick) => read_topology(alloc, "map", map, pick),
        Format::GeoJson { class } => read_features(alloc, map, class),
    }
}
