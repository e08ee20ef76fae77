// The rings of a region.
ghost use Rattle.std.specs.Prelude.{◌≡◌, ◌+◌, ◌<◌, ◌≤◌, ℕ, length, map, true, false, slice_index, slice_index_or, All, IfOk, OnOk};
ghost use Rattle.plane_edge.specs.Edges.{IsRisingEdges, HaveEvenEnds};
ghost use Rattle.plane_strip.specs.Strip.{IsPlanar};
ghost use Rattle.edge_sides.specs.Laws.{AreBalanced};
ghost use Rattle.region_rings.specs.Walks.{IsAtRest, IsOpenAt};
ghost use Rattle.region_rings.specs.RegionRings.{AreRingsOf, IsLeftRing};
ghost use Rattle.region_rings.specs.LeftWalks.{IsLeftAtRest};
ghost use Rattle.region_rings.specs.Sides.{AreSides};
ghost use Rattle.region_rings.specs.Spokes.{AreSpokesOf};
ghost use Rattle.region_rings.specs.Exits.{AreExitsOf, AreLinksOf};

use crate::border::Border;
use crate::exit::exits_of;
use crate::sides::directions;
use crate::spoke::spokes_of;
use crate::walk::Walk;
use crate::way::other_end;
use agg_base::NoMemory;
use agg_base::limits::STEPS;
use plane_edge::{Edge, Point};
use std::alloc::Global;

// A link from each of so many places to the next.
fn links_of(alloc: Global, count: usize) -> Result<Vec<usize>, NoMemory>
    ensures count { IfOk result (λ links. length links.items ≡ count) }
    ensures each { IfOk result (λ links. (k : ℕ) → k < count → slice_index links.items k ≡ k + 1) }
{
    let mut links = Vec::with_capacity(alloc, count)?;
    for place in 0..count {
        links.push(place + 1)?;
    }
    Ok(links)
}

// Walks from an edge until no edge is left where the walk stands.
fn walk_from(
    alloc: Global,
    border: &Border,
    links: &mut Vec<usize>,
    walk: &mut Walk,
    first: usize,
) -> Result<(), NoMemory>
    requires rising { IsRisingEdges border.now.edges.now }
    requires spokes { AreSpokesOf border.now.edges.now border.now.spokes.items }
    requires exits { AreExitsOf border.now.edges.now border.now.leftward.items border.now.exits.items }
    requires links { AreLinksOf border.now.exits.items walk.old links.old.items }
    requires sides { length border.now.leftward.items ≡ length border.now.edges.now }
    requires rest { IsAtRest border.now.edges.now border.now.spokes.items walk.old }
    requires directed { AreSides border.now.edges.now border.now.edges.now border.now.leftward.items }
    requires course { AreBalanced border.now.edges.now → IsLeftAtRest border.now.edges.now walk.old }
    requires first { first < length border.now.edges.now }
    requires left { slice_index_or walk.old.walked first true ≡ false }
    ensures links { OnOk result (AreLinksOf border.now.exits.items walk.new links.new.items) }
    ensures rest { OnOk result (IsAtRest border.now.edges.now border.now.spokes.items walk.new) }
    ensures course { OnOk result (AreBalanced border.now.edges.now → IsLeftAtRest border.now.edges.now walk.new) }
    ensures walked { OnOk result (slice_index_or walk.new.walked first true ≡ true) }
    ensures kept { OnOk result ((k : ℕ) → slice_index_or walk.old.walked k true ≡ true → slice_index_or walk.new.walked k true ≡ true) }
{
    let mut at = border.way(first).tail();
    walk.begin(at, border.number_of(&at))?;
    let mut next = Some(first);
    while let Some(edge) = next {
        let back = at;
        at = other_end(&border.edges[edge], &back);
        let number = border.number_of(&at);
        walk.go(alloc, edge, at, number)?;
        next = border.next(links, walk, &at, number, &back);
    }
    Ok(())
}

/// The rings of a region, whose edges rise and end at each point in an even number. A ring has three points or more and visits none twice; its
/// first point is not repeated at its end. Together the rings step along each edge exactly once and along no other edge.
///
/// Where the edges meet in common ends only, each ring has the region on its left: it goes along each of its edges from the edge's start to its
/// finish.
///
/// A walk begins with the least edge that is not walked yet, and has the region on its left. At each point it takes, of the edges there that are
/// not walked and lead away, the first one that a clockwise turn from the direction back meets. Where it comes to a point of its path, the path since
/// then is cut off as a ring. Rings stand in the order in which they are cut off.
///
/// n edges take steps in the order of n log n, however many meet at one point, where as many lead to each point as away from it. `NoMemory` comes only
/// when memory runs out.
pub fn rings_of(alloc: Global, edges: &[Edge]) -> Result<Vec<Vec<Point>>, NoMemory>
    requires rising { IsRisingEdges edges.now }
    requires even { HaveEvenEnds edges.now }
    requires few { length edges.now ≤ STEPS }
    ensures rings { IfOk result (λ rings. AreRingsOf edges.now (map (λ ring. ring.items) rings.items)) }
    ensures left { IfOk result (λ rings. IsPlanar edges.now → All (IsLeftRing edges.now) (map (λ ring. ring.items) rings.items)) }
{
    let leftward = directions(alloc, edges)?;
    let border = Border {
        edges,
        spokes: spokes_of(alloc, edges)?,
        exits: exits_of(alloc, edges, &leftward)?,
        leftward,
    };
    let exits = border.exits.len();
    let mut links = links_of(alloc, exits)?;
    let mut walk = Walk::of(alloc, edges.len(), border.spokes.len())?;
    for edge in 0..edges.len() {
        if !walk.is_walked(edge) {
            walk_from(alloc, &border, &mut links, &mut walk, edge)?;
        }
    }
    Ok(walk.into_rings())
}
