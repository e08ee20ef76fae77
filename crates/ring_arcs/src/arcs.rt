// All rings over shared arcs.
ghost use Rattle.std.specs.Prelude.{◌≡◌, ◌↔◌, ◌≤◌, ◌++◌, List, length, map, All, Contains, IfOk, OnOk};
ghost use Rattle.std.specs.Cmp.Lexicographic.{slice_cmp};
ghost use Rattle.std.specs.List.Sorted.{IsStrictlySortedBy};
ghost use Rattle.plane_edge.specs.declared.point.Point.{Point};
ghost use Rattle.ring_arcs.specs.Breaks.{IsBroken};
ghost use Rattle.ring_arcs.specs.Chains.{AddsArcs, AreGathered, AreStored, AreSymmetric, IsCovered};
ghost use Rattle.ring_arcs.specs.RingArcs.{AreArcsOf, AreIndexed};
ghost use Rattle.agg_base.specs.Lists.{lists_of};
ghost use Rattle.ring_arcs.specs.Rings.{steps_of_rings};
ghost use Rattle.plane_edge.specs.Rings.{IsRing};
ghost use Rattle.ring_arcs.specs.Turning.{arc_of};
ghost use Rattle.ring_arcs.specs.Ways.{point_order, AreWaysOf};

use crate::breaks::Breaks;
use crate::chains::chains_of;
use crate::numbers::indexes_of;
use crate::turning::arc_of;
use agg_base::NoMemory;
use plane_edge::Point;
use std::alloc::Global;

/// Arcs, and rings as lists of their indexes.
#[derive(Drop)]
pub struct Arcs {
    /// Each arc as its points, two or more, in the order of the lists of points.
    pub arcs: Vec<Vec<Point>>,
    /// Of each ring the indexes of the arcs round it, as in TopoJSON 1.0: i is arc i in its direction, -i - 1 is arc i backwards.
    pub rings: Vec<Vec<i64>>,
}

// Appends the arcs that the chains are stored as.
fn push_stored(arcs: &mut Vec<Vec<Point>>, chains: Vec<Vec<Point>>) -> Result<(), NoMemory>
    requires { All (λ chain. 2 ≤ length chain.items) chains.items }
    ensures { OnOk result (lists_of arcs.new.items ≡ lists_of arcs.old.items ++ map arc_of (lists_of chains.items)) }
{
    for chain in chains {
        arcs.push(arc_of(chain))?;
    }
    Ok(())
}

// Appends the arcs of the ring.
fn push_arcs(
    arcs: &mut Vec<Vec<Point>>,
    alloc: Global,
    breaks: &Breaks,
    ring: &[Point],
) -> Result<(), NoMemory>
    requires ring { IsRing ring.now }
    requires broken { IsBroken breaks.now.ways.items breaks.now.loops.items ring.now }
    requires covered { IsCovered breaks.now.ways.items ring.now }
    ensures { OnOk result (AddsArcs breaks.now.ways.items breaks.now.loops.items ring.now (lists_of arcs.old.items) (lists_of arcs.new.items)) }
{
    let chains = chains_of(alloc, breaks, ring)?;
    push_stored(arcs, chains)
}

// The arcs of all rings, ring by ring.
fn gather(alloc: Global, breaks: &Breaks, rings: &[Vec<Point>]) -> Result<Vec<Vec<Point>>, NoMemory>
    requires rings { All (λ ring. IsRing ring.items) rings.now }
    requires broken { All (λ ring. IsBroken breaks.now.ways.items breaks.now.loops.items ring.items) rings.now }
    requires covered { All (λ ring. IsCovered breaks.now.ways.items ring.items) rings.now }
    requires symmetric { AreSymmetric breaks.now.ways.items }
    ensures { IfOk result (λ arcs. AreGathered breaks.now.ways.items breaks.now.loops.items (lists_of rings.now) (lists_of arcs.items)) }
{
    let mut arcs = Vec::new(alloc);
    for ring in rings {
        push_arcs(&mut arcs, alloc, breaks, ring)?;
    }
    Ok(arcs)
}

// Sorts the arcs, and keeps each once.
fn sort_distinct(arcs: &mut Vec<Vec<Point>>)
    ensures rising { IsStrictlySortedBy (slice_cmp point_order) (lists_of arcs.new.items) }
    ensures same { (arc : List Point) → Contains (lists_of arcs.new.items) arc ↔ Contains (lists_of arcs.old.items) arc }
{
    arcs.sort_unstable();
    arcs.dedup();
}

// The arcs of all rings, in order and each once.
fn all_arcs(
    alloc: Global,
    breaks: &Breaks,
    rings: &[Vec<Point>],
) -> Result<Vec<Vec<Point>>, NoMemory>
    requires rings { All (λ ring. IsRing ring.items) rings.now }
    requires broken { All (λ ring. IsBroken breaks.now.ways.items breaks.now.loops.items ring.items) rings.now }
    requires ways { AreWaysOf (steps_of_rings (lists_of rings.now)) breaks.now.ways.items }
    ensures { IfOk result (λ arcs. AreStored breaks.now.ways.items breaks.now.loops.items (lists_of arcs.items)) }
{
    let mut arcs = gather(alloc, breaks, rings)?;
    sort_distinct(&mut arcs);
    Ok(arcs)
}

// The indexes of each ring.
fn all_indexes(
    alloc: Global,
    breaks: &Breaks,
    arcs: &[Vec<Point>],
    rings: &[Vec<Point>],
) -> Result<Vec<Vec<i64>>, NoMemory>
    requires rings { All (λ ring. IsRing ring.items) rings.now }
    requires broken { All (λ ring. IsBroken breaks.now.ways.items breaks.now.loops.items ring.items) rings.now }
    requires covered { All (λ ring. IsCovered breaks.now.ways.items ring.items) rings.now }
    requires symmetric { AreSymmetric breaks.now.ways.items }
    requires stored { AreStored breaks.now.ways.items breaks.now.loops.items (lists_of arcs.now) }
    ensures { IfOk result (λ indexes. AreIndexed (lists_of rings.now) (lists_of arcs.now) (lists_of indexes.items)) }
{
    let mut indexes = Vec::new(alloc);
    for ring in rings {
        indexes.push(indexes_of(alloc, breaks, arcs, ring)?)?;
    }
    Ok(indexes)
}

/// The rings over shared arcs. A border edge is a step of some ring, and a node is a point where
/// the number of border edges is not two. An arc is a longest chain of border edges without a node
/// inside it, or a closed chain without nodes. It starts at its lesser end; where it starts and ends
/// at one node it starts there, and where it has no node at its least point; both go first to the
/// lesser of the two next points. Arcs are ordered by their lists of points. A ring begins with its
/// arc of least number, and goes in its own direction. No point is dropped from a straight line.
///
/// Each ring is a cyclic list of points, the first not repeated at the end. `NoMemory` comes only
/// when memory runs out.
pub fn arcs_of(alloc: Global, rings: &[Vec<Point>]) -> Result<Arcs, NoMemory>
    requires rings { All (λ ring. IsRing ring.items) rings.now }
    ensures arcs { IfOk result (λ a. AreArcsOf (lists_of rings.now) (lists_of a.arcs.items)) }
    ensures indexed { IfOk result (λ a. AreIndexed (lists_of rings.now) (lists_of a.arcs.items) (lists_of a.rings.items)) }
{
    let breaks = Breaks::of(alloc, rings)?;
    let arcs = all_arcs(alloc, &breaks, rings)?;
    let rings = all_indexes(alloc, &breaks, &arcs, rings)?;
    Ok(Arcs { arcs, rings })
}
