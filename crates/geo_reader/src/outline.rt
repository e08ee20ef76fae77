// The points of rings.
ghost use Rattle.std.specs.Prelude.{◌≡◌, ◌↔◌, ℤ, FitsSigned, IfOk, IfSome, IfNone, IsTrue, All};
ghost use Rattle.std.specs.Int.{w64};
ghost use Rattle.std.specs.List.{AllByRecursion};
ghost use Rattle.agg_base.specs.Lists.{lists_of};
ghost use Rattle.agg_base.specs.Numbers.{SpellsWhole, IsWholeAnswer};
ghost use Rattle.json_text.specs.Values.{json_of, list_of};
ghost use Rattle.plane_edge.specs.Edges.{is_same_point};
ghost use Rattle.plane_edge.specs.declared.point.Point.{Point};
ghost use Rattle.geo_reader.specs.Areas.{SpellsPoint, SpellPoints, SpellRings, IsClosed};
ghost use Rattle.geo_reader.specs.Held.{rings_in};
ghost use Rattle.geo_reader.specs.Rules.{IsWhole, IsNear, AreNear};

use agg_base::{NoMemory, Text, Whole, read_whole};
use json_text::Tree;
use map_values::numbers_of;
use plane_edge::Point;
use std::alloc::Global;

// Whether the first two numbers of each position are whole.
pub(crate) fn are_whole(rings: &[&[Tree]]) -> bool
    ensures { IsTrue result ↔ All (λ ring. AllByRecursion IsWhole (list_of ring.now)) rings.now }
{
    rings.iter().all(|ring| is_whole_ring(ring))
}

// The same of one ring.
fn is_whole_ring(ring: &[Tree]) -> bool
    ensures { IsTrue result ↔ AllByRecursion IsWhole (list_of ring.now) }
{
    for position in ring {
        if !is_whole_position(position) {
            return false;
        }
    }
    true
}

// The same of one position.
#[tactic(auto, using(crate::proofs::PositionLemmas::two_wholes, crate::proofs::PositionLemmas::first_part, crate::proofs::PositionLemmas::second_part, crate::proofs::PositionLemmas::no_numbers))]
fn is_whole_position(position: &Tree) -> bool
    ensures { IsTrue result ↔ IsWhole (json_of position.now) }
{
    let Some((x, y)) = numbers_of(position) else {
        return false;
    };
    if !is_whole(x) {
        return false;
    }
    is_whole(y)
}

// Whether a number is whole.
fn is_whole(number: &Text) -> bool
    ensures { IsTrue result ↔ ((n : ℤ) × SpellsWhole number.now n) }
{
    match value_of(number) {
        Whole::Not => false,
        Whole::Beyond => true,
        Whole::Is(_) => true,
    }
}

// The value of a number, where it is whole.
fn value_of(number: &Text) -> Whole
    ensures { IsWholeAnswer (SpellsWhole number.now) result }
{
    read_whole(number.as_str().as_bytes())
}

// The points of rings; None where a position is no point within the limit of coordinates.
#[tactic(auto, using(crate::proofs::LoopLemmas::outline_more, crate::proofs::LoopLemmas::no_outline))]
pub(crate) fn outlines_of(
    alloc: Global,
    rings: &[&[Tree]],
) -> Result<Option<Vec<Vec<Point>>>, NoMemory>
    ensures found { IfOk result (λ o. IfSome o (λ outlines. SpellRings (rings_in rings.now) (lists_of outlines.items))) }
    ensures none { IfOk result (λ o. IfNone o (¬ AreNear (rings_in rings.now))) }
{
    let mut outlines = Vec::with_capacity(alloc, rings.len())?;
    for ring in rings {
        let Some(outline) = outline_of(alloc, ring)? else {
            return Ok(None);
        };
        outlines.push(outline)?;
    }
    Ok(Some(outlines))
}

// The points of a ring.
#[tactic(auto, using(crate::proofs::LoopLemmas::point_more, crate::proofs::LoopLemmas::no_point))]
fn outline_of(alloc: Global, ring: &[Tree]) -> Result<Option<Vec<Point>>, NoMemory>
    ensures found { IfOk result (λ o. IfSome o (λ points. SpellPoints (list_of ring.now) points.items)) }
    ensures none { IfOk result (λ o. IfNone o (¬ AllByRecursion IsNear (list_of ring.now))) }
{
    let mut points = Vec::with_capacity(alloc, ring.len())?;
    for position in ring {
        let Some(point) = point_of(position) else {
            return Ok(None);
        };
        points.push(point)?;
    }
    Ok(Some(points))
}

// The point that a position spells.
#[tactic(auto, using(crate::proofs::PositionLemmas::point_spelled))]
fn point_of(position: &Tree) -> Option<Point>
    ensures found { IfSome result (λ p. SpellsPoint (json_of position.now) p) }
    ensures none { IfNone result ((p : Point) → ¬ SpellsPoint (json_of position.now) p) }
{
    let (x, y) = numbers_of(position)?;
    let x = small_value(x)?;
    let y = small_value(y)?;
    Point::of(x, y)
}

// The value of a number, where it is whole and of 64 bits.
#[tactic(auto, using(crate::proofs::PositionLemmas::not_never))]
fn small_value(number: &Text) -> Option<i64>
    ensures found { IfSome result (λ n. SpellsWhole number.now n) }
    ensures fits { IfSome result (λ n. FitsSigned w64 n) }
    ensures none { IfNone result ((n : ℤ) → SpellsWhole number.now n → ¬ FitsSigned w64 n) }
{
    match value_of(number) {
        Whole::Not => None,
        Whole::Beyond => None,
        Whole::Is(value) => Some(value),
    }
}

// Whether each ring is closed.
pub(crate) fn are_closed(outlines: &[Vec<Point>]) -> bool
    ensures { IsTrue result ↔ All (λ outline. IsClosed outline.items) outlines.now }
{
    outlines.iter().all(|outline| is_closed(outline))
}

// Whether there are four points or more, of which the last is the first again.
#[tactic(auto, using(crate::proofs::PositionLemmas::closed_ring, crate::proofs::PositionLemmas::open_ring, crate::proofs::PositionLemmas::short_ring))]
fn is_closed(outline: &[Point]) -> bool
    ensures { IsTrue result ↔ IsClosed outline.now }
{
    if outline.len() < 4 {
        return false;
    }
    are_same(&outline[0], &outline[outline.len() - 1])
}

// Whether two points are the same.
fn are_same(one: &Point, other: &Point) -> bool
    ensures { result ≡ is_same_point one.now other.now }
{
    one == other
}
