// Ways: each border edge from either end.
ghost use Rattle.std.specs.Prelude.{◌≡◌, ◌↔◌, Contains, IfOk};
ghost use Rattle.std.specs.List.Sorted.{IsStrictlySortedBy};
ghost use Rattle.plane_edge.specs.declared.point.Point.{Point};
ghost use Rattle.agg_base.specs.Lists.{lists_of};
ghost use Rattle.ring_arcs.specs.Rings.{steps_of_rings};
ghost use Rattle.ring_arcs.specs.Ways.{both_ways, way_order, AreWaysOf};

use agg_base::NoMemory;
use plane_edge::{Edge, Point, steps_of_rings};
use std::alloc::Global;

// Both ways along each edge.
fn both_ways(alloc: Global, edges: &[Edge]) -> Result<Vec<(Point, Point)>, NoMemory>
    ensures { IfOk result (λ ways. ways.items ≡ both_ways edges.now) }
{
    let mut ways = Vec::new(alloc);
    for edge in edges {
        ways.push((edge.low, edge.high))?;
        ways.push((edge.high, edge.low))?;
    }
    Ok(ways)
}

// Sorts the ways, and keeps each once.
fn sort_distinct(ways: &mut Vec<(Point, Point)>)
    ensures rising { IsStrictlySortedBy way_order ways.new.items }
    ensures same { (w : Point × Point) → Contains ways.new.items w ↔ Contains ways.old.items w }
{
    ways.sort_unstable();
    ways.dedup();
}

/// The ways along the steps of all rings, from either end, in order and each once.
pub fn ways_of(alloc: Global, rings: &[Vec<Point>]) -> Result<Vec<(Point, Point)>, NoMemory>
    ensures rising { IfOk result (λ ways. IsStrictlySortedBy way_order ways.items) }
    ensures exact { IfOk result (λ ways. AreWaysOf (steps_of_rings (lists_of rings.now)) ways.items) }
{
    let steps = steps_of_rings(alloc, rings)?;
    let mut ways = both_ways(alloc, &steps)?;
    sort_distinct(&mut ways);
    Ok(ways)
}
