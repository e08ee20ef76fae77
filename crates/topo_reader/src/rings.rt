// The rings of a geometry, as the values of their indexes.
ghost use Rattle.std.specs.Prelude.{◌≡◌, ◌++◌, ◌↔◌, true, false, ℕ, List, map, IsTrue, IfOk, IfSome, IfNone};
ghost use Rattle.json_text.specs.Tree.{Number};
ghost use Rattle.json_text.specs.Values.{json_of, list_of};
ghost use Rattle.topo_reader.specs.Indexes.{rings_in, ring_numbers, HasPolygons};
ghost use Rattle.topo_reader.specs.PlaceFaults.{ring_tree, polygon_tree, HasRings};

use agg_base::{NoMemory, Text};
use json_text::Tree;
use map_values::{has_type, list_of};
use std::alloc::Global;
use std::slice;

// The rings of a geometry, each as the values of its indexes; `None` where it is no polygon and not several. They are borrowed, since they
// are most of some maps.
pub(crate) fn rings_of(alloc: Global, tree: &Tree) -> Result<Option<Vec<&[Tree]>>, NoMemory>
    ensures found { IfOk result (λ o. IfSome o (λ rings. (texts : List (List (List ℕ))) × HasRings (json_of tree.now) texts × (rings_in rings.items ≡ ring_numbers texts))) }
    ensures none { IfOk result (λ o. IfNone o ((texts : List (List (List ℕ))) → ¬ HasRings (json_of tree.now) texts)) }
{
    let Some(polygons) = polygons_of(tree) else {
        return Ok(None);
    };
    let mut rings = Vec::new(alloc);
    for polygon in polygons {
        let is_polygon = push_rings(&mut rings, polygon)?;
        if !is_polygon {
            return Ok(None);
        }
    }
    Ok(Some(rings))
}

// The polygons of a geometry, which are not looked at.
fn polygons_of(tree: &Tree) -> Option<&[Tree]>
    ensures found { IfSome result (λ polygons. HasPolygons (json_of tree.now) (list_of polygons.now)) }
    ensures none { IfNone result ((texts : List (List (List ℕ))) → ¬ HasRings (json_of tree.now) texts) }
{
    let arcs = tree.member("arcs")?;
    if has_type(tree, "Polygon") {
        return Some(slice::from_ref(arcs));
    }
    if has_type(tree, "MultiPolygon") {
        return list_of(arcs);
    }
    None
}

// Appends the rings of a polygon; answers whether it is a list of lists of numbers.
fn push_rings<'a>(rings: &mut Vec<&'a [Tree]>, polygon: &'a Tree) -> Result<bool, NoMemory>
    ensures found { IfOk result (λ is. is ≡ true → (texts : List (List (List ℕ))) × (json_of polygon.now ≡ polygon_tree texts) × (rings_in rings.new.items ≡ rings_in rings.old.items ++ ring_numbers texts)) }
    ensures none { IfOk result (λ is. is ≡ false → (texts : List (List (List ℕ))) → ¬ (json_of polygon.now ≡ polygon_tree texts)) }
{
    let Some(parts) = list_of(polygon) else {
        return Ok(false);
    };
    for part in parts {
        let Some(ring) = ring_of(part) else {
            return Ok(false);
        };
        rings.push(ring)?;
    }
    Ok(true)
}

// The numbers of a list; `None` where the value is no list of numbers.
fn ring_of(tree: &Tree) -> Option<&[Tree]>
    ensures found { IfSome result (λ ring. (texts : List (List ℕ)) × (json_of tree.now ≡ ring_tree texts) × (list_of ring.now ≡ map Number texts)) }
    ensures none { IfNone result ((texts : List (List ℕ)) → ¬ (json_of tree.now ≡ ring_tree texts)) }
{
    let numbers = list_of(tree)?;
    if !are_numbers(numbers) {
        return None;
    }
    Some(numbers)
}

// Whether all values are numbers.
fn are_numbers(trees: &[Tree]) -> bool
    ensures { IsTrue result ↔ ((texts : List (List ℕ)) × (list_of trees.now ≡ map Number texts)) }
{
    for tree in trees {
        let Some(_) = number_in(tree) else {
            return false;
        };
    }
    true
}

// The characters of a number; `None` where the value is none.
pub(crate) fn number_in(tree: &Tree) -> Option<&Text>
    ensures found { IfSome result (λ number. json_of tree.now ≡ Number number.now) }
    ensures none { IfNone result ((number : List ℕ) → ¬ (json_of tree.now ≡ Number number)) }
{
    match tree {
        Tree::Number(number) => Some(number),
        _ => None,
    }
}
