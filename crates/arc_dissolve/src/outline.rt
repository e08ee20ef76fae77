// Rings as lists of points.
ghost use Rattle.std.specs.Prelude.{◌≡◌, ◌++◌, All, map, IfOk, OnOk};
ghost use Rattle.ring_arcs.specs.RingArcs.{arc_at, without_last, IsIndex};
ghost use Rattle.arc_dissolve.specs.Rings.{points_round};
ghost use Rattle.agg_base.specs.Lists.{lists_of};

use crate::numbers::number_of;
use agg_base::NoMemory;
use plane_edge::Point;
use std::alloc::Global;

// The points of the arc that the index tells, in the direction that it tells.
fn arc_at(alloc: Global, arcs: &[Vec<Point>], index: &i64) -> Result<Vec<Point>, NoMemory>
    requires { IsIndex (lists_of arcs.now) index.now }
    ensures { IfOk result (λ arc. arc.items ≡ arc_at (lists_of arcs.now) index.now) }
{
    let mut arc = Vec::from_slice(alloc, &arcs[number_of(*index)])?;
    if *index < 0 {
        arc.reverse();
    }
    Ok(arc)
}

// Appends the points of a path without its last one.
fn push_path(points: &mut Vec<Point>, path: &[Point]) -> Result<(), NoMemory>
    ensures { OnOk result (points.new.items ≡ points.old.items ++ without_last path.now) }
{
    let count = path.len().saturating_sub(1);
    points.extend_from_slice(&path[..count])?;
    Ok(())
}

/// The points of the ring that the indexes tell.
pub fn points_round(
    alloc: Global,
    arcs: &[Vec<Point>],
    ring: &[i64],
) -> Result<Vec<Point>, NoMemory>
    requires { All (IsIndex (lists_of arcs.now)) ring.now }
    ensures { IfOk result (λ points. points.items ≡ points_round (lists_of arcs.now) ring.now) }
{
    let mut points = Vec::new(alloc);
    for index in ring {
        let arc = arc_at(alloc, arcs, index)?;
        push_path(&mut points, &arc)?;
    }
    Ok(points)
}

/// The points of each ring.
pub fn outlines_of(
    alloc: Global,
    arcs: &[Vec<Point>],
    rings: &[Vec<i64>],
) -> Result<Vec<Vec<Point>>, NoMemory>
    requires { All (λ ring. All (IsIndex (lists_of arcs.now)) ring.items) rings.now }
    ensures { IfOk result (λ outlines. lists_of outlines.items ≡ map (points_round (lists_of arcs.now)) (lists_of rings.now)) }
{
    let mut outlines = Vec::new(alloc);
    for ring in rings {
        outlines.push(points_round(alloc, arcs, ring)?)?;
    }
    Ok(outlines)
}
