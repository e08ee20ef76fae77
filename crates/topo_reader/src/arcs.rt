// The arcs of a topology.
ghost use Rattle.std.specs.Prelude.{◌≡◌, ◌≤◌, ◌+ℤ◌, ◌↔◌, List, ℕ, ℤ, pos, length, IsTrue, IfOk, IfErr, IfSome, IfNone, if◌then◌else◌};
ghost use Rattle.std.specs.List.{AllZip, AllByRecursion};
ghost use Rattle.agg_base.specs.Lists.{lists_of};
ghost use Rattle.agg_base.specs.Numbers.{SpellsWhole};
ghost use Rattle.agg_base.specs.declared.limits.TheConstants.{TEXT_BYTES};
ghost use Rattle.json_text.specs.Tree.{Json};
ghost use Rattle.json_text.specs.Values.{json_of, list_of};
ghost use Rattle.plane_edge.specs.Coordinate.{IsCoordinate};
ghost use Rattle.plane_edge.specs.declared.point.Point.{Point};
ghost use Rattle.topo_reader.specs.Arcs.{SpellsPoint, SpellPoints, SpellsArc};
ghost use Rattle.topo_reader.specs.Origins.{next_of, across, up};
ghost use Rattle.topo_reader.specs.ArcFaults.{HasNumbers, HasWholeNumbers, IsArc, IsFar, IsPastLimit, BreaksArc, IsArcFault};
ghost use Rattle.topo_reader.specs.Rules.{UnlessMemory};
ghost use Rattle.topo_reader.specs.Thinned.{IsThinned};

use crate::TopoFault;
use agg_base::limits::COORDINATE;
use agg_base::{Text, Whole, read_whole};
use json_text::Tree;
use map_values::{list_of, numbers_of};
use plane_edge::{Limit, Point};
use std::alloc::Global;

// The points of all arcs, each thinned: no point stands twice in a row. With a transform each position but the first of an arc is added to the
// one before.
pub(crate) fn read_arcs(
    alloc: Global,
    relative: bool,
    parts: &[Tree],
) -> Result<Vec<Vec<Point>>, TopoFault>
    requires { length parts.now ≤ TEXT_BYTES }
    ensures found { IfOk result (λ arcs. (paths : List (List Point)) × AllZip (SpellsArc relative) (list_of parts.now) paths × AllZip IsThinned paths (lists_of arcs.items)) }
    ensures few { IfOk result (λ arcs. length arcs.items ≤ TEXT_BYTES) }
    ensures fault { IfErr result (λ f. UnlessMemory f (IsArcFault relative (list_of parts.now) f)) }
{
    let mut arcs = Vec::with_capacity(alloc, parts.len())?;
    for at in 0..parts.len() {
        let arc = read_arc(alloc, relative, at as u32, &parts[at])?;
        arcs.push(without_repeats(arc))?;
    }
    Ok(arcs)
}

// The points of an arc without those that are the same as the one before.
fn without_repeats(arc: Vec<Point>) -> Vec<Point>
    ensures { IsThinned arc.items result.items }
{
    let mut thin = arc;
    thin.dedup();
    thin
}

// The points of the arc with that number.
fn read_arc(alloc: Global, relative: bool, at: u32, tree: &Tree) -> Result<Vec<Point>, TopoFault>
    ensures found { IfOk result (λ points. SpellsArc relative (json_of tree.now) points.items) }
    ensures fault { IfErr result (λ f. UnlessMemory f (BreaksArc relative at (json_of tree.now) f)) }
{
    let Some(positions) = positions_of(tree) else {
        return Err(TopoFault::BadArc { arc: at });
    };
    if !are_whole(positions) {
        return Err(TopoFault::NotWhole { arc: at });
    }
    read_points(alloc, relative, positions)
}

// The positions of an arc: two lists or more, of which each begins with two numbers.
fn positions_of(tree: &Tree) -> Option<&[Tree]>
    ensures found { IfSome result (λ positions. IsArc (json_of tree.now) (list_of positions.now)) }
    ensures none { IfNone result ((positions : List Json) → ¬ IsArc (json_of tree.now) positions) }
{
    let positions = list_of(tree)?;
    if positions.len() < 2 || !have_numbers(positions) {
        return None;
    }
    Some(positions)
}

// Whether each position begins with two numbers.
fn have_numbers(positions: &[Tree]) -> bool
    ensures { IsTrue result ↔ AllByRecursion HasNumbers (list_of positions.now) }
{
    for position in positions {
        let Some(_) = numbers_of(position) else {
            return false;
        };
    }
    true
}

// Whether each position begins with two whole numbers.
fn are_whole(positions: &[Tree]) -> bool
    ensures { IsTrue result ↔ AllByRecursion HasWholeNumbers (list_of positions.now) }
{
    for position in positions {
        if !is_whole(position) {
            return false;
        }
    }
    true
}

// Whether a position begins with two whole numbers.
fn is_whole(position: &Tree) -> bool
    ensures { IsTrue result ↔ HasWholeNumbers (json_of position.now) }
{
    let Some((first, second)) = numbers_of(position) else {
        return false;
    };
    is_number(first) && is_number(second)
}

// Whether a text spells a whole number.
fn is_number(text: &Text) -> bool
    ensures { IsTrue result ↔ ((n : ℤ) × SpellsWhole text.now n) }
{
    match read_whole(text.as_str().as_bytes()) {
        Whole::Not => false,
        Whole::Beyond | Whole::Is(_) => true,
    }
}

// The points of positions that begin with two whole numbers each.
fn read_points(alloc: Global, relative: bool, positions: &[Tree]) -> Result<Vec<Point>, TopoFault>
    requires { AllByRecursion HasWholeNumbers (list_of positions.now) }
    ensures found { IfOk result (λ points. SpellPoints relative (pos 0) (pos 0) (list_of positions.now) points.items) }
    ensures fault { IfErr result (λ f. UnlessMemory f (IsPastLimit relative (list_of positions.now) f)) }
{
    let mut points = Vec::with_capacity(alloc, positions.len())?;
    for position in positions {
        let from = origin_of(relative, &points);
        let Some(point) = point_of(from, position) else {
            return Err(TopoFault::Limit(Limit::Coordinate));
        };
        points.push(point)?;
    }
    Ok(points)
}

// What the position behind these points is added to.
fn origin_of(relative: bool, points: &[Point]) -> Point
    ensures x { result.x ≡ next_of across relative (pos 0) points.now }
    ensures y { result.y ≡ next_of up relative (pos 0) points.now }
{
    let Some(last) = points.last() else {
        return Point { y: 0, x: 0 };
    };
    origin_behind(relative, *last)
}

// The same behind a point.
fn origin_behind(relative: bool, last: Point) -> Point
    ensures x { result.x ≡ (if relative then last.x else pos 0) }
    ensures y { result.y ≡ (if relative then last.y else pos 0) }
{
    if relative { last } else { Point { y: 0, x: 0 } }
}

// The point of a position that is added to another point; `None` where it is past the limit.
fn point_of(from: Point, position: &Tree) -> Option<Point>
    requires { HasWholeNumbers (json_of position.now) }
    ensures found { IfSome result (λ point. SpellsPoint from.x from.y (json_of position.now) point) }
    ensures none { IfNone result (IsFar from.x from.y (json_of position.now)) }
{
    let Some((first, second)) = numbers_of(position) else {
        return None;
    };
    let Some(across) = sum_of(from.x, first) else {
        return None;
    };
    let Some(up) = sum_of(from.y, second) else {
        return None;
    };
    Some(point_at(across, up))
}

// The point with these coordinates.
fn point_at(x: i32, y: i32) -> Point
    requires x { IsCoordinate x }
    requires y { IsCoordinate y }
    ensures x { result.x ≡ x }
    ensures y { result.y ≡ y }
{
    Point { y, x }
}

// The coordinate and the whole number that a text spells, together; `None` where the sum is past the limit of coordinates.
fn sum_of(from: i32, text: &Text) -> Option<i32>
    requires from { IsCoordinate from }
    requires whole { (n : ℤ) × SpellsWhole text.now n }
    ensures found { IfSome result (λ sum. (n : ℤ) × SpellsWhole text.now n × (sum ≡ from +ℤ n)) }
    ensures within { IfSome result (λ sum. IsCoordinate sum) }
    ensures none { IfNone result ((n : ℤ) × SpellsWhole text.now n × ¬ IsCoordinate (from +ℤ n)) }
{
    let Whole::Is(step) = read_whole(text.as_str().as_bytes()) else {
        return None;
    };
    coordinate_behind(from, step)
}

// The sum of a coordinate and a step; `None` where it is past the limit.
#[tactic(auto, using(crate::proofs::PointLemmas::fits))]
fn coordinate_behind(from: i32, step: i64) -> Option<i32>
    requires { IsCoordinate from }
    ensures found { IfSome result (λ sum. sum ≡ from +ℤ step) }
    ensures within { IfSome result (λ sum. IsCoordinate sum) }
    ensures none { IfNone result (¬ IsCoordinate (from +ℤ step)) }
{
    let Some(sum) = (from as i64).checked_add(step) else {
        return None;
    };
    coordinate(sum)
}

// A number that is a coordinate.
fn coordinate(value: i64) -> Option<i32>
    ensures found { IfSome result (λ z. z ≡ value) }
    ensures within { IfSome result (λ z. IsCoordinate z) }
    ensures none { IfNone result (¬ IsCoordinate value) }
{
    if value < -COORDINATE || value > COORDINATE {
        return None;
    }
    Some(value as i32)
}
