// The heights at which edges end.
ghost use Rattle.std.specs.Prelude.{◌≡◌, ◌↔◌, ℤ, Contains, IfOk};
ghost use Rattle.std.specs.List.Sorted.{IsStrictlySortedBy};
ghost use Rattle.std.specs.Ordering.{int_cmp};
ghost use Rattle.coverage_check.specs.Heights.{end_heights_of};

use agg_base::NoMemory;
use plane_edge::Edge;
use std::alloc::Global;

// The heights of both ends of the edges.
fn end_heights(alloc: Global, edges: &[Edge]) -> Result<Vec<i32>, NoMemory>
    ensures { IfOk result (λ hs. hs.items ≡ end_heights_of edges.now) }
{
    let mut heights = Vec::new(alloc);
    for edge in edges {
        heights.push(edge.low.y)?;
        heights.push(edge.high.y)?;
    }
    Ok(heights)
}

// Sorts the heights, and keeps each once.
fn sort_distinct(heights: &mut Vec<i32>)
    ensures rising { IsStrictlySortedBy int_cmp heights.new.items }
    ensures same { (y : ℤ) → Contains heights.new.items y ↔ Contains heights.old.items y }
{
    heights.sort_unstable();
    heights.dedup();
}

/// The distinct heights of the ends of the edges, from below.
pub fn heights_of(alloc: Global, edges: &[Edge]) -> Result<Vec<i32>, NoMemory>
    ensures rising { IfOk result (λ hs. IsStrictlySortedBy int_cmp hs.items) }
    ensures same { IfOk result (λ hs. (y : ℤ) → Contains hs.items y ↔ Contains (end_heights_of edges.now) y) }
{
    let mut heights = end_heights(alloc, edges)?;
    sort_distinct(&mut heights);
    Ok(heights)
}
