// The edges that stand an odd number of times in lists.
ghost use Rattle.std.specs.Prelude.{◌≡◌, ◌<◌, ◌≤◌, ℕ, length, IfOk};
ghost use Rattle.plane_edge.specs.Edges.{AreOddOf};
ghost use Rattle.region_edges.specs.RegionEdges.{edge_count, list_at};
ghost use Rattle.agg_base.specs.Lists.{lists_of};

use agg_base::NoMemory;
use plane_edge::{Edge, odd_of};
use std::alloc::Global;

/// For each list the edges that stand an odd number of times in it, each once, in rising order.
pub fn odd_of_each(alloc: Global, edges: Vec<Vec<Edge>>) -> Result<Vec<Vec<Edge>>, NoMemory>
    ensures one_each { IfOk result (λ odds. length odds.items ≡ length edges.items) }
    ensures odd { IfOk result (λ odds. (r : ℕ) → r < length edges.items → AreOddOf (list_at (lists_of edges.items) r) (list_at (lists_of odds.items) r)) }
    ensures short { IfOk result (λ odds. edge_count (lists_of odds.items) ≤ edge_count (lists_of edges.items)) }
{
    let mut odds = Vec::with_capacity(alloc, edges.len())?;
    for list in edges {
        odds.push(odd_of(alloc, list)?)?;
    }
    Ok(odds)
}
