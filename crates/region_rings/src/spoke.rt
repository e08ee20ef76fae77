// Edges by their ends.
ghost use Rattle.std.specs.Prelude.{◌≡◌, ◌≤◌, length, IfOk};
ghost use Rattle.region_rings.specs.Spokes.{spokes_from, AreSpokesOf};

use agg_base::NoMemory;
use agg_base::limits::STEPS;
use plane_edge::{Edge, Point};
use std::alloc::Global;

/// An edge, by its number, at one of its ends. Spokes are ordered by their points, then by their edges.
#[derive(Clone, Copy, Debug, PartialEq, Eq, PartialOrd, Ord)]
pub struct Spoke {
    /// The end.
    pub at: Point,
    /// The number of the edge.
    pub edge: usize,
}

// Both spokes of each edge, edge by edge.
fn gather(alloc: Global, edges: &[Edge]) -> Result<Vec<Spoke>, NoMemory>
    requires { length edges.now ≤ STEPS }
    ensures { IfOk result (λ spokes. spokes.items ≡ spokes_from 0 edges.now) }
{
    let mut spokes = Vec::with_capacity(alloc, 2 * edges.len())?;
    for (number, edge) in edges.iter().enumerate() {
        spokes.push(Spoke {
            at: edge.low,
            edge: number,
        })?;
        spokes.push(Spoke {
            at: edge.high,
            edge: number,
        })?;
    }
    Ok(spokes)
}

/// The spokes of the edges, in the order of their points.
pub fn spokes_of(alloc: Global, edges: &[Edge]) -> Result<Vec<Spoke>, NoMemory>
    requires { length edges.now ≤ STEPS }
    ensures { IfOk result (λ spokes. AreSpokesOf edges.now spokes.items) }
{
    let mut spokes = gather(alloc, edges)?;
    spokes.sort_unstable();
    Ok(spokes)
}
