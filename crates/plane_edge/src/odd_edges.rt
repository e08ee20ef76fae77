// The edges that occur an odd number of times.
ghost use Rattle.std.specs.Prelude.{◌≡◌, ◌≤◌, length, IfOk, OnOk};
ghost use Rattle.plane_edge.specs.Edges.{AreOddOf, HaveEvenEnds};
ghost use Rattle.plane_edge.specs.Sweep.{is_last, toggle};

use crate::area::Area;
use crate::edge::Edge;
use agg_base::NoMemory;
use std::alloc::Global;

/// The edges that occur an odd number of times among the steps of the area, each once, in rising
/// order. Each point is an end of an even number of them. Its one refusal is want of memory.
pub fn odd(alloc: Global, area: &Area) -> Result<Vec<Edge>, NoMemory>
    ensures odd { IfOk result (λ edges. AreOddOf area.now.steps edges.items) }
    ensures short { IfOk result (λ edges. length edges.items ≤ length area.now.steps) }
    ensures even { IfOk result (λ edges. HaveEvenEnds edges.items) }
{
    let steps = Vec::from_slice(alloc, area.steps())?;
    let odd = odd_of(alloc, steps)?;
    Ok(odd)
}

/// The edges that occur an odd number of times among the given ones, each once, in rising order. Where
/// each point is an end of an even number of the given edges, it is an end of an even number of the
/// odd ones.
pub fn odd_of(alloc: Global, mut edges: Vec<Edge>) -> Result<Vec<Edge>, NoMemory>
    ensures odd { IfOk result (λ odd. AreOddOf edges.items odd.items) }
    ensures short { IfOk result (λ odd. length odd.items ≤ length edges.items) }
    ensures even { IfOk result (λ odd. HaveEvenEnds edges.items → HaveEvenEnds odd.items) }
{
    edges.sort_unstable();
    let mut odd = Vec::new(alloc);
    for edge in &edges {
        toggle(&mut odd, *edge)?;
    }
    Ok(odd)
}

// Takes the edge away where it is the last one, else appends it.
fn toggle(edges: &mut Vec<Edge>, edge: Edge) -> Result<(), NoMemory>
    ensures { OnOk result (edges.new.items ≡ toggle edges.old.items edge) }
{
    if is_last(edges, &edge) {
        edges.truncate(edges.len() - 1);
    } else {
        edges.push(edge)?;
    }
    Ok(())
}

// Whether the edge is the last one.
fn is_last(edges: &[Edge], edge: &Edge) -> bool
    ensures { result ≡ is_last edges.now edge.now }
{
    match edges.last() {
        Some(last) => last == edge,
        None => false,
    }
}
