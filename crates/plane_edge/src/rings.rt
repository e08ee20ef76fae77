// Steps of rings.
ghost use Rattle.std.specs.Prelude.{◌≡◌, ◌++◌, map, flat_map, IfOk, OnOk};
ghost use Rattle.plane_edge.specs.Edges.{HaveEvenEnds};
ghost use Rattle.plane_edge.specs.Rings.{ends_of, step_between, steps_of_ring};

use crate::edge::Edge;
use crate::point::Point;
use agg_base::NoMemory;
use std::alloc::Global;

/// The steps of a ring, which is a cyclic list of points: those of non-zero length from each point to
/// the next, and from the last back to the first.
pub fn steps_of_ring(alloc: Global, ring: &[Point]) -> Result<Vec<Edge>, NoMemory>
    ensures { IfOk result (λ steps. map ends_of steps.items ≡ steps_of_ring ring.now) }
{
    let mut steps = Vec::new(alloc);
    push_ring(&mut steps, ring)?;
    Ok(steps)
}

/// The steps of some rings, ring by ring. Each point is an end of an even number of them.
pub fn steps_of_rings(alloc: Global, rings: &[Vec<Point>]) -> Result<Vec<Edge>, NoMemory>
    ensures value { IfOk result (λ steps. map ends_of steps.items ≡ flat_map (λ ring. steps_of_ring ring.items) rings.now) }
    ensures even { IfOk result (λ steps. HaveEvenEnds steps.items) }
{
    let mut steps = Vec::new(alloc);
    for ring in rings {
        push_ring(&mut steps, ring)?;
    }
    Ok(steps)
}

// Appends the steps of a ring.
fn push_ring(steps: &mut Vec<Edge>, ring: &[Point]) -> Result<(), NoMemory>
    ensures { OnOk result (map ends_of steps.new.items ≡ map ends_of steps.old.items ++ steps_of_ring ring.now) }
{
    let [first, rest @ ..] = ring else {
        return Ok(());
    };
    let mut from = *first;
    for to in rest {
        push_step(steps, from, *to)?;
        from = *to;
    }
    push_step(steps, from, *first)
}

// Appends the step between two points, if they differ.
fn push_step(steps: &mut Vec<Edge>, from: Point, to: Point) -> Result<(), NoMemory>
    ensures { OnOk result (map ends_of steps.new.items ≡ map ends_of steps.old.items ++ step_between from to) }
{
    if let Some(edge) = Edge::of(from, to) {
        steps.push(edge)?;
    }
    Ok(())
}
