// The paths that the indexes of rings tell, and the points along them. An index is read wherever it is asked for, so that the rings take no
// memory of their own.
ghost use Rattle.std.specs.Prelude.{◌≡◌, ◌<◌, ◌≤◌, ◌+◌, ◌-◌, ◌++◌, ◌↔◌, Some, flat_map, length, drop, min, reverse, IsTrue, IfOk, IfSome, IfNone, OnOk};
ghost use Rattle.std.specs.List.{AllByRecursion};
ghost use Rattle.agg_base.specs.Lists.{lists_of};
ghost use Rattle.agg_base.specs.declared.limits.TheConstants.{STEPS};
ghost use Rattle.agg_base.specs.declared.numeral.Whole.TheVariants.{Is};
ghost use Rattle.json_text.specs.Values.{list_of};
ghost use Rattle.plane_edge.specs.Edges.{is_same_point};
ghost use Rattle.plane_edge.specs.Paths.{first_of, last_of, points_along};
ghost use Rattle.plane_edge.specs.Rings.{steps_of_ring};
ghost use Rattle.topo_reader.specs.Indexes.{rings_in, OfRing, OfRings, is_index, AreInRange, index_of, arc_number, in_direction, path_told, paths_told, begin_of, front_of, CanClose, ring_steps, all_steps, rings_along};

use agg_base::limits::STEPS;
use agg_base::{NoMemory, Whole};
use json_text::Tree;
use map_values::whole_of;
use plane_edge::Point;
use std::alloc::Global;

// Whether all indexes are in range for so many arcs.
pub(crate) fn are_indexes(rings: &[&[Tree]], count: usize) -> bool
    ensures { OfRings (rings_in rings.now) (λ wholes. IsTrue result ↔ AllByRecursion (AreInRange count) wholes) }
{
    for ring in rings {
        if !are_in_range(ring, count) {
            return false;
        }
    }
    true
}

// Whether the indexes of a ring are.
fn are_in_range(ring: &[Tree], count: usize) -> bool
    ensures { OfRing (list_of ring.now) (λ wholes. IsTrue result ↔ AreInRange count wholes) }
{
    for index in ring {
        if !is_index(whole_of(index), count) {
            return false;
        }
    }
    true
}

// Whether an index is in range for so many arcs.
fn is_index(index: Whole, count: usize) -> bool
    ensures { result ≡ is_index count index }
{
    match index {
        Whole::Is(index) => is_below(index, count),
        Whole::Not | Whole::Beyond => false,
    }
}

// Whether the arc of an index is one of so many.
fn is_below(index: i64, count: usize) -> bool
    ensures { result ≡ is_index count (Is index) }
{
    let (at, _) = number_of(index);
    at < count as u64
}

// The number of the arc that an index tells, and whether that arc is taken in its own order.
fn number_of(index: i64) -> (u64, bool)
    ensures { index ≡ index_of result.1 result.0 }
{
    if index >= 0 {
        (index as u64, true)
    } else {
        ((-1 - index) as u64, false)
    }
}

// The arc that an index tells, and whether it is taken in its own order. An index of no arc has no points.
fn arc_of(arcs: &[Vec<Point>], index: Whole) -> (&[Point], bool)
    ensures { path_told (lists_of arcs.now) index ≡ in_direction result.1 result.0.now }
{
    match index {
        Whole::Is(index) => arc_of_number(arcs, index),
        Whole::Not | Whole::Beyond => (&[], true),
    }
}

// The same of a number.
fn arc_of_number(arcs: &[Vec<Point>], index: i64) -> (&[Point], bool)
    ensures { path_told (lists_of arcs.now) (Is index) ≡ in_direction result.1 result.0.now }
{
    let (at, forward) = number_of(index);
    (arc_at(arcs, at), forward)
}

// The points of an arc; none where there is no arc of that number.
fn arc_at(arcs: &[Vec<Point>], at: u64) -> &[Point]
    ensures { result.now ≡ arc_number (lists_of arcs.now) at }
{
    match arcs.get(at as usize) {
        Some(arc) => arc.as_slice(),
        None => &[],
    }
}

// Where the path of an index begins.
fn first_point(arcs: &[Vec<Point>], index: Whole) -> Option<Point>
    ensures { result ≡ first_of (path_told (lists_of arcs.now) index) }
{
    let (points, forward) = arc_of(arcs, index);
    if forward {
        points.first().copied()
    } else {
        points.last().copied()
    }
}

// Where the path of an index ends.
fn last_point(arcs: &[Vec<Point>], index: Whole) -> Option<Point>
    ensures { result ≡ last_of (path_told (lists_of arcs.now) index) }
{
    let (points, forward) = arc_of(arcs, index);
    if forward {
        points.last().copied()
    } else {
        points.first().copied()
    }
}

// Where the first path of a ring begins.
fn begin_of(arcs: &[Vec<Point>], ring: &[Tree]) -> Option<Point>
    ensures { OfRing (list_of ring.now) (λ wholes. result ≡ begin_of (paths_told (lists_of arcs.now) wholes)) }
{
    let [index, ..] = ring else {
        return None;
    };
    first_point(arcs, whole_of(index))
}

// Whether the arcs of each ring join and close.
pub(crate) fn are_closed(arcs: &[Vec<Point>], rings: &[&[Tree]]) -> bool
    ensures { OfRings (rings_in rings.now) (λ wholes. IsTrue result ↔ AllByRecursion (CanClose (lists_of arcs.now)) wholes) }
{
    for ring in rings {
        if !is_closed(arcs, ring) {
            return false;
        }
    }
    true
}

// Whether the arcs that the indexes of a ring tell join and close; it has one or more.
fn is_closed(arcs: &[Vec<Point>], ring: &[Tree]) -> bool
    ensures { OfRing (list_of ring.now) (λ wholes. IsTrue result ↔ CanClose (lists_of arcs.now) wholes) }
{
    let Some(begin) = begin_of(arcs, ring) else {
        return false;
    };
    let mut at = begin;
    for index in ring {
        let Some(to) = end_behind(arcs, whole_of(index), at) else {
            return false;
        };
        at = to;
    }
    is_same(at, begin)
}

// Whether two points are the same.
fn is_same(one: Point, other: Point) -> bool
    ensures { result ≡ is_same_point one other }
{
    one == other
}

// Where the path of an index ends that begins at the point; `None` where it begins elsewhere.
fn end_behind(arcs: &[Vec<Point>], index: Whole, at: Point) -> Option<Point>
    ensures found { IfSome result (λ to. (first_of (path_told (lists_of arcs.now) index) ≡ Some at) × (last_of (path_told (lists_of arcs.now) index) ≡ Some to)) }
    ensures none { IfNone result (¬ (first_of (path_told (lists_of arcs.now) index) ≡ Some at)) }
{
    let Some(from) = first_point(arcs, index) else {
        return None;
    };
    if !is_same(from, at) {
        return None;
    }
    last_point(arcs, index)
}

// Whether the rings have at most that many steps together. An arc has no point twice in a row, so it has one step less than points.
pub(crate) fn have_few_steps(arcs: &[Vec<Point>], rings: &[&[Tree]], most: usize) -> bool
    ensures { OfRings (rings_in rings.now) (λ wholes. IsTrue result ↔ (all_steps (lists_of arcs.now) wholes ≤ most)) }
{
    let mut left = most;
    for ring in rings {
        let Some(rest) = steps_left(arcs, ring, left) else {
            return false;
        };
        left = rest;
    }
    true
}

// How many of so many steps are left behind a ring; `None` where it has more.
fn steps_left(arcs: &[Vec<Point>], ring: &[Tree], most: usize) -> Option<usize>
    ensures found { IfSome result (λ rest. OfRing (list_of ring.now) (λ wholes. ring_steps (lists_of arcs.now) wholes + rest ≡ most)) }
    ensures left { IfSome result (λ rest. rest ≤ most) }
    ensures none { IfNone result (OfRing (list_of ring.now) (λ wholes. most < ring_steps (lists_of arcs.now) wholes)) }
{
    let mut left = most;
    for index in ring {
        let steps = step_count(arcs, whole_of(index));
        if steps > left {
            return None;
        }
        left -= steps;
    }
    Some(left)
}

// How many steps the path has that an index tells.
fn step_count(arcs: &[Vec<Point>], index: Whole) -> usize
    ensures { result ≡ length (path_told (lists_of arcs.now) index) - 1 }
{
    let (points, _) = arc_of(arcs, index);
    points.len().saturating_sub(1)
}

// How many steps a ring has, and at most `STEPS`.
fn ring_step_count(arcs: &[Vec<Point>], ring: &[Tree]) -> usize
    ensures few { result ≤ STEPS }
    ensures count { OfRing (list_of ring.now) (λ wholes. result ≡ min STEPS (ring_steps (lists_of arcs.now) wholes)) }
{
    match steps_left(arcs, ring, STEPS) {
        Some(left) => STEPS - left,
        None => STEPS,
    }
}

// The points along the paths of the rings that have steps. The others have none to add, and a map may have many of them.
pub(crate) fn points_of(
    alloc: Global,
    arcs: &[Vec<Point>],
    rings: &[&[Tree]],
) -> Result<Vec<Vec<Point>>, NoMemory>
    ensures { IfOk result (λ all. OfRings (rings_in rings.now) (λ wholes. flat_map steps_of_ring (lists_of all.items) ≡ flat_map steps_of_ring (rings_along (lists_of arcs.now) wholes))) }
{
    let mut all = Vec::new(alloc);
    for ring in rings {
        let steps = ring_step_count(arcs, ring);
        if steps == 0 {
            continue;
        }
        all.push(ring_points(alloc, arcs, ring, steps)?)?;
    }
    Ok(all)
}

// The points of a ring along one path after another, of which each but the first is taken without its first point. There is room for one
// more than so many.
fn ring_points(
    alloc: Global,
    arcs: &[Vec<Point>],
    ring: &[Tree],
    steps: usize,
) -> Result<Vec<Point>, NoMemory>
    requires { steps ≤ STEPS }
    ensures { IfOk result (λ points. OfRing (list_of ring.now) (λ wholes. points.items ≡ points_along (paths_told (lists_of arcs.now) wholes))) }
{
    let mut points = Vec::with_capacity(alloc, steps + 1)?;
    push_front(&mut points, arcs, ring)?;
    for index in ring {
        push_path(&mut points, arcs, whole_of(index))?;
    }
    Ok(points)
}

// Appends the point where the first path of a ring begins.
fn push_front(points: &mut Vec<Point>, arcs: &[Vec<Point>], ring: &[Tree]) -> Result<(), NoMemory>
    ensures { OnOk result (OfRing (list_of ring.now) (λ wholes. points.new.items ≡ points.old.items ++ front_of (paths_told (lists_of arcs.now) wholes))) }
{
    let Some(begin) = begin_of(arcs, ring) else {
        return Ok(());
    };
    points.push(begin)?;
    Ok(())
}

// Appends the points of the path that an index tells, but for the first.
fn push_path(points: &mut Vec<Point>, arcs: &[Vec<Point>], index: Whole) -> Result<(), NoMemory>
    ensures { OnOk result (points.new.items ≡ points.old.items ++ drop 1 (path_told (lists_of arcs.now) index)) }
{
    let (arc, forward) = arc_of(arcs, index);
    if forward {
        push_rest(points, arc)
    } else {
        push_back(points, arc)
    }
}

// Appends the points of an arc, but for the first.
fn push_rest(points: &mut Vec<Point>, arc: &[Point]) -> Result<(), NoMemory>
    ensures { OnOk result (points.new.items ≡ points.old.items ++ drop 1 arc.now) }
{
    if arc.is_empty() {
        return Ok(());
    }
    points.extend_from_slice(&arc[1..])?;
    Ok(())
}

// Appends the points of an arc backwards, but for the last.
fn push_back(points: &mut Vec<Point>, arc: &[Point]) -> Result<(), NoMemory>
    ensures { OnOk result (points.new.items ≡ points.old.items ++ drop 1 (reverse arc.now)) }
{
    let count = arc.len().saturating_sub(1);
    for at in (0..count).rev() {
        points.push(arc[at])?;
    }
    Ok(())
}
