// The rings of a geometry, each with its positions.
ghost use Rattle.std.specs.Prelude.{◌↔◌, List, IfOk, IfSome, IfNone, IsTrue, MatchBool};
ghost use Rattle.std.specs.List.{AllByRecursion};
ghost use Rattle.json_text.specs.Tree.{Json};
ghost use Rattle.json_text.specs.Values.{json_of, list_of};
ghost use Rattle.geo_reader.specs.Features.{IsPosition, HasPositions, HasPolygon, HasRings};
ghost use Rattle.geo_reader.specs.Held.{rings_in, AppendsRings, HavePolygons};

use agg_base::NoMemory;
use json_text::Tree;
use map_values::{has_type, list_of, numbers_of};
use std::alloc::Global;

// The rings of a geometry; None where it is no polygon and no polygons.
#[tactic(auto, using(crate::proofs::RingLemmas::no_coordinates, crate::proofs::RingLemmas::neither_type))]
pub(crate) fn rings_of(alloc: Global, geometry: &Tree) -> Result<Option<Vec<&[Tree]>>, NoMemory>
    ensures found { IfOk result (λ o. IfSome o (λ rings. HasRings (json_of geometry.now) (rings_in rings.items))) }
    ensures none { IfOk result (λ o. IfNone o ((rings : List (List Json)) → ¬ HasRings (json_of geometry.now) rings)) }
{
    let Some(coordinates) = geometry.member("coordinates") else {
        return Ok(None);
    };
    if has_type(geometry, "Polygon") {
        return rings_of_polygon(alloc, coordinates);
    }
    if has_type(geometry, "MultiPolygon") {
        return rings_of_polygons(alloc, coordinates);
    }
    Ok(None)
}

// The rings of a polygon.
#[tactic(auto, using(crate::proofs::RingLemmas::alone))]
fn rings_of_polygon(alloc: Global, coordinates: &Tree) -> Result<Option<Vec<&[Tree]>>, NoMemory>
    ensures found { IfOk result (λ o. IfSome o (λ rings. HasPolygon (json_of coordinates.now) (rings_in rings.items))) }
    ensures none { IfOk result (λ o. IfNone o ((rings : List (List Json)) → ¬ HasPolygon (json_of coordinates.now) rings)) }
{
    let mut rings = Vec::new(alloc);
    if push_polygon(&mut rings, coordinates)? {
        Ok(Some(rings))
    } else {
        Ok(None)
    }
}

// The rings of polygons, one polygon after another.
#[tactic(auto, using(crate::proofs::LoopLemmas::polygon_more, crate::proofs::LoopLemmas::all_flattened, crate::proofs::LoopLemmas::no_polygons, crate::proofs::LoopLemmas::none_flattened))]
fn rings_of_polygons(alloc: Global, coordinates: &Tree) -> Result<Option<Vec<&[Tree]>>, NoMemory>
    ensures found { IfOk result (λ o. IfSome o (λ rings. HavePolygons (json_of coordinates.now) (rings_in rings.items))) }
    ensures none { IfOk result (λ o. IfNone o ((rings : List (List Json)) → ¬ HavePolygons (json_of coordinates.now) rings)) }
{
    let Some(polygons) = list_of(coordinates) else {
        return Ok(None);
    };
    let mut rings = Vec::new(alloc);
    for polygon in polygons {
        if !push_polygon(&mut rings, polygon)? {
            return Ok(None);
        }
    }
    Ok(Some(rings))
}

// Appends the rings of a polygon; false where it is none.
#[tactic(auto, using(crate::proofs::LoopLemmas::ring_more, crate::proofs::LoopLemmas::polygon_appended, crate::proofs::LoopLemmas::no_parts, crate::proofs::LoopLemmas::none_appended))]
fn push_polygon<'a>(rings: &mut Vec<&'a [Tree]>, polygon: &'a Tree) -> Result<bool, NoMemory>
    ensures { IfOk result (λ is. MatchBool is (AppendsRings (json_of polygon.now) (rings_in rings.old.items) (rings_in rings.new.items)) ((rings : List (List Json)) → ¬ HasPolygon (json_of polygon.now) rings)) }
{
    let Some(parts) = list_of(polygon) else {
        return Ok(false);
    };
    for part in parts {
        let Some(ring) = ring_of(part) else {
            return Ok(false);
        };
        rings.push(ring)?;
    }
    Ok(true)
}

// The positions of a ring; None where it is no list of positions.
#[tactic(auto, using(crate::proofs::ReaderLemmas::ring_found, crate::proofs::ReaderLemmas::ring_missed, crate::proofs::ReaderLemmas::ring_unlisted))]
fn ring_of(tree: &Tree) -> Option<&[Tree]>
    ensures found { IfSome result (λ ring. HasPositions (json_of tree.now) (list_of ring.now)) }
    ensures none { IfNone result ((ring : List Json) → ¬ HasPositions (json_of tree.now) ring) }
{
    let positions = list_of(tree)?;
    if are_positions(positions) {
        Some(positions)
    } else {
        None
    }
}

// Whether each value begins with two numbers.
fn are_positions(positions: &[Tree]) -> bool
    ensures { IsTrue result ↔ AllByRecursion IsPosition (list_of positions.now) }
{
    for position in positions {
        if !is_position(position) {
            return false;
        }
    }
    true
}

// Whether a value begins with two numbers.
fn is_position(tree: &Tree) -> bool
    ensures { IsTrue result ↔ IsPosition (json_of tree.now) }
{
    numbers_of(tree).is_some()
}
