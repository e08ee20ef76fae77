// The polygons of a region.
ghost use Rattle.std.specs.Prelude.{◌≡◌, All, IfOk};
ghost use Rattle.std.specs.List.Sorted.{IsNonDecreasingBy, IsPermutation};
ghost use Rattle.arc_dissolve.specs.Drawing.{ArePolygonsOf};
ghost use Rattle.arc_dissolve.specs.Holes.{first_arc};
ghost use Rattle.arc_dissolve.specs.Rings.{IsDrawnRing};
ghost use Rattle.agg_base.specs.Lists.{lists_of, nested_of};

use crate::heads::heads_of;
use crate::numbers::first_arc;
use crate::outline::outlines_of;
use crate::shells::shells_of;
use crate::slots::group;
use agg_base::NoMemory;
use plane_edge::Point;
use std::alloc::Global;

// The same rings again.
fn copy(alloc: Global, rings: &[Vec<i64>]) -> Result<Vec<Vec<i64>>, NoMemory>
    ensures { IfOk result (λ copies. lists_of copies.items ≡ lists_of rings.now) }
{
    let mut copies = Vec::new(alloc);
    for ring in rings {
        copies.push(Vec::from_slice(alloc, ring)?)?;
    }
    Ok(copies)
}

// The rings in the order of their first arcs.
fn by_first_arc(alloc: Global, rings: &[Vec<i64>]) -> Result<Vec<Vec<i64>>, NoMemory>
    ensures same { IfOk result (λ copies. IsPermutation (lists_of rings.now) (lists_of copies.items)) }
    ensures in_order { IfOk result (λ copies. IsNonDecreasingBy first_arc (lists_of copies.items)) }
{
    let mut copies = copy(alloc, rings)?;
    copies.sort_unstable_by_key(|ring| first_arc(ring));
    Ok(copies)
}

/// The polygons that the rings make: each shell with the holes that it owns. Polygons are in the order of the first arcs of their first rings, and
/// holes in that of their own.
pub fn polygons_of(
    alloc: Global,
    arcs: &[Vec<Point>],
    rings: &[Vec<i64>],
) -> Result<Vec<Vec<Vec<i64>>>, NoMemory>
    requires { All (λ ring. IsDrawnRing (lists_of arcs.now) ring.items) rings.now }
    ensures { IfOk result (λ polygons. ArePolygonsOf (lists_of arcs.now) (lists_of rings.now) (nested_of polygons.items)) }
{
    let rings = by_first_arc(alloc, rings)?;
    let outlines = outlines_of(alloc, arcs, &rings)?;
    let shells = shells_of(alloc, &rings, &outlines)?;
    let heads = heads_of(alloc, &shells, &outlines)?;
    let polygons = group(alloc, &rings, &heads)?;
    Ok(polygons)
}
