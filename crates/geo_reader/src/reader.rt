// The reader of GeoJSON.
ghost use Rattle.std.specs.Prelude.{◌≡◌, ◌≤◌, List, length, count_by, IfOk, IfErr, IfSome, IfNone};
ghost use Rattle.agg_base.specs.declared.limits.TheConstants.{TEXT_BYTES};
ghost use Rattle.json_text.specs.Lengths.{AreListsWithin};
ghost use Rattle.json_text.specs.Tree.{Json};
ghost use Rattle.json_text.specs.Values.{json_of, list_of};
ghost use Rattle.map_values.specs.Layers.{Layer};
ghost use Rattle.plane_edge.specs.declared.frame.Frame.TheVariants.{Plain};
ghost use Rattle.geo_reader.specs.Collections.{IsCollection, SpellAreas, SpellsFeatures};
ghost use Rattle.geo_reader.specs.Faults.{FailsAtFeature, IsFirstFault, IsFaultOf};
ghost use Rattle.geo_reader.specs.Features.{is_passed};
ghost use Rattle.geo_reader.specs.Outcomes.{layer_of, Reads, FailsBy, UnlessMemory};
ghost use Rattle.geo_reader.specs.declared.fault.GeoFault.{GeoFault};

use crate::GeoFault;
use crate::feature::feature_area;
use agg_base::Text;
use json_text::Tree;
use map_values::{has_type, list_of};
use plane_edge::{Area, Coverage, Frame};
use std::alloc::Global;

/// The coverage that a value of JSON spells as GeoJSON (RFC 7946).
///
/// The value is an object with `type` "FeatureCollection" and an array `features`. Each feature is an object with `type` "Feature"; its
/// `geometry` has `type` "Polygon" or "MultiPolygon" and `coordinates` nested accordingly, whose positions begin with two numbers. Further
/// numbers of a position are passed over, and so are other members. A geometry that is null or absent is passed over and counted. Of members
/// of one name the last one counts.
///
/// Each other feature is one area with all its rings. Its class is the member of the name `class` among its `properties`: a text of 1 to 100
/// bytes, or a whole number of 64 bits, which stands for its decimal spelling. A coordinate is a whole number, written with an optional minus,
/// digits, and perhaps a point with zeros behind it, at most 2^30 from 0. A ring has four positions or more, and the first two numbers of its
/// last position have the values of those of its first. The frame is `Plain`. No list of the value is longer than `agg_base::limits::TEXT_BYTES`.
///
/// A fault is that of the first rule that is broken: `NotGeoJson`; then, feature by feature, `NotPolygonal`, `Limit(Areas)` for a 65,537th
/// area, `NoClass`, `NotWhole`, `Limit(Coordinate)`, `OpenRing`, and `Limit(Edges)` where the steps of non-zero length so far pass 2,097,152.
/// Each rule is tested over the whole of a feature before the next one.
pub fn read(alloc: Global, tree: &Tree, class: &Text) -> Result<Coverage, GeoFault>
    requires { AreListsWithin TEXT_BYTES (json_of tree.now) }
    ensures found { IfOk result (λ c. SpellsFeatures (json_of tree.now) class.now (layer_of c)) }
    ensures fault { IfErr result (λ f. IsFaultOf (json_of tree.now) class.now f) }
    ensures spelled { (layer : Layer) → SpellsFeatures (json_of tree.now) class.now layer → Reads layer result }
    ensures faulty { (f : GeoFault) → IsFirstFault (json_of tree.now) class.now f → FailsBy f result }
{
    read_tree(alloc, tree, class)
}

// The same, where only what is answered is told.
#[tactic(auto, using(crate::proofs::ReaderLemmas::said_none, crate::proofs::ReaderLemmas::said_map, crate::proofs::ReaderLemmas::said_fault))]
fn read_tree(alloc: Global, tree: &Tree, class: &Text) -> Result<Coverage, GeoFault>
    requires { AreListsWithin TEXT_BYTES (json_of tree.now) }
    ensures found { IfOk result (λ c. SpellsFeatures (json_of tree.now) class.now (layer_of c)) }
    ensures fault { IfErr result (λ f. IsFaultOf (json_of tree.now) class.now f) }
{
    let Some(features) = features_of(tree) else {
        return Err(GeoFault::NotGeoJson);
    };
    read_features(alloc, features, class.as_str())
}

// The features of a collection.
#[tactic(auto, using(crate::proofs::CollectionLemmas::is_collection, crate::proofs::CollectionLemmas::few_features, crate::proofs::CollectionLemmas::other_type, crate::proofs::CollectionLemmas::no_features, crate::proofs::CollectionLemmas::no_list))]
fn features_of(tree: &Tree) -> Option<&[Tree]>
    requires { AreListsWithin TEXT_BYTES (json_of tree.now) }
    ensures found { IfSome result (λ features. IsCollection (json_of tree.now) (list_of features.now)) }
    ensures few { IfSome result (λ features. length features.now ≤ TEXT_BYTES) }
    ensures none { IfNone result ((features : List Json) → ¬ IsCollection (json_of tree.now) features) }
{
    if !has_type(tree, "FeatureCollection") {
        return None;
    }
    let value = tree.member("features")?;
    let features = list_of(value)?;
    Some(features)
}

// The coverage of features.
#[tactic(auto, using(crate::proofs::ReadLemmas::read_none, crate::proofs::ReadLemmas::few_steps_read))]
fn read_features(alloc: Global, features: &[Tree], name: &str) -> Result<Coverage, GeoFault>
    requires { length features.now ≤ TEXT_BYTES }
    ensures areas { IfOk result (λ c. SpellAreas name.now (list_of features.now) c.areas.items) }
    ensures passed { IfOk result (λ c. c.passed ≡ count_by is_passed (list_of features.now)) }
    ensures frame { IfOk result (λ c. c.frame ≡ Plain) }
    ensures fault { IfErr result (λ f. UnlessMemory f (FailsAtFeature name.now (list_of features.now) f)) }
{
    let mut areas = Vec::new(alloc);
    let mut steps = 0;
    let mut passed = 0;
    for (place, feature) in features.iter().enumerate() {
        let found = feature_area(alloc, place as u32, feature, name, areas.len(), steps)?;
        let Some(area) = found else {
            passed += 1;
            continue;
        };
        steps += step_number(&area);
        areas.push(area)?;
    }
    Ok(Coverage {
        areas,
        passed,
        frame: Frame::Plain,
    })
}

// How many steps an area has.
fn step_number(area: &Area) -> usize
    ensures { result ≡ length area.now.steps }
{
    area.steps().len()
}
