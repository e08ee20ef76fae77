// On which side of each edge the region is.
ghost use Rattle.std.specs.Prelude.{◌≡◌, ◌↔◌, IsTrue, IfOk};
ghost use Rattle.region_rings.specs.Sides.{AreSides};
ghost use Rattle.edge_sides.specs.Sides.{is_level, IsLeftward};

use agg_base::NoMemory;
use edge_rows::EdgeRows;
use plane_edge::Edge;
use std::alloc::Global;

// Whether both ends have one height.
fn is_level(edge: &Edge) -> bool
    ensures { result ≡ is_level edge.now }
{
    edge.low.y == edge.high.y
}

// Whether the region is on the left of the edge, seen from its low end to its high end. The middle of a level edge is inside then, and that of a
// rising edge is not.
fn is_leftward(rows: &EdgeRows, edge: &Edge) -> bool
    ensures { IsTrue result ↔ IsLeftward rows.now edge.now }
{
    let is_inside = rows.inside(&edge.middle());
    if is_level(edge) {
        is_inside
    } else {
        !is_inside
    }
}

// For each edge, whether the region is on its left, by the rows of all edges.
fn sides_by(alloc: Global, rows: &EdgeRows, edges: &[Edge]) -> Result<Vec<bool>, NoMemory>
    ensures { IfOk result (λ sides. AreSides rows.now edges.now sides.items) }
{
    let mut sides = Vec::with_capacity(alloc, edges.len())?;
    for edge in edges {
        sides.push(is_leftward(rows, edge))?;
    }
    Ok(sides)
}

/// For each edge, whether the region is on its left, seen from its low end to its high end.
pub fn directions(alloc: Global, edges: &[Edge]) -> Result<Vec<bool>, NoMemory>
    ensures { IfOk result (λ sides. AreSides edges.now edges.now sides.items) }
{
    let rows = EdgeRows::of(alloc, edges)?;
    let sides = sides_by(alloc, &rows, edges)?;
    Ok(sides)
}
