// Rings as lists of arc numbers.
ghost use Rattle.std.specs.Prelude.{◌≡◌, ◌<◌, ◌≤◌, ◌^◌, pos, negsuc, length, map, All, IfOk, get_or, []};
ghost use Rattle.std.specs.Cmp.Lexicographic.{slice_cmp};
ghost use Rattle.std.specs.List.Sorted.{IsStrictlySortedBy};
ghost use Rattle.ring_arcs.specs.Breaks.{IsBroken};
ghost use Rattle.ring_arcs.specs.Chains.{AreSymmetric, AreStored, IsCovered};
ghost use Rattle.ring_arcs.specs.Numbers.{number_of, is_before, IsLeastAt, IsStoredIn};
ghost use Rattle.ring_arcs.specs.RingArcs.{arc_at, IsIndex, AreIndexesOf};
ghost use Rattle.agg_base.specs.Lists.{lists_of};
ghost use Rattle.plane_edge.specs.Rings.{IsRing};
ghost use Rattle.ring_arcs.specs.Turning.{arc_of};
ghost use Rattle.ring_arcs.specs.Ways.{point_order};

use crate::breaks::Breaks;
use crate::chains::chains_of;
use crate::turning::{arc_of, is_backward};
use agg_base::NoMemory;
use plane_edge::Point;
use std::alloc::Global;

// The number of the arc that the chain is stored as.
fn number_in(arcs: &[Vec<Point>], chain: Vec<Point>) -> usize
    requires rising { IsStrictlySortedBy (slice_cmp point_order) (lists_of arcs.now) }
    requires stored { IsStoredIn (lists_of arcs.now) chain.items }
    ensures within { result < length arcs.now }
    ensures found { get_or (lists_of arcs.now) result [] ≡ arc_of chain.items }
{
    let arc = arc_of(chain);
    let Ok(number) = arcs.binary_search(&arc) else {
        unreachable!()
    };
    number
}

// The index that tells the arc of that number.
fn index_forwards(number: usize) -> i64
    requires { number < 2 ^ 63 }
    ensures { result ≡ pos number }
{
    number as i64
}

// The index that tells the arc of that number backwards.
fn index_backwards(number: usize) -> i64
    requires { number < 2 ^ 63 }
    ensures { result ≡ negsuc number }
{
    -(number as i64) - 1
}

// The index of the arc that the chain is stored as.
fn index_of(arcs: &[Vec<Point>], chain: Vec<Point>) -> i64
    requires rising { IsStrictlySortedBy (slice_cmp point_order) (lists_of arcs.now) }
    requires stored { IsStoredIn (lists_of arcs.now) chain.items }
    ensures in_range { IsIndex (lists_of arcs.now) result }
    ensures told { arc_at (lists_of arcs.now) result ≡ chain.items }
{
    let backward = is_backward(&chain);
    let number = number_in(arcs, chain);
    if backward {
        index_backwards(number)
    } else {
        index_forwards(number)
    }
}

// The number of the arc that the index tells.
fn number_of(index: i64) -> i64
    ensures { result ≡ pos (number_of index) }
{
    if index < 0 { -(index + 1) } else { index }
}

// Whether the arc of the first index has a lesser number.
fn is_before(one: &i64, other: &i64) -> bool
    ensures { result ≡ is_before one.now other.now }
{
    number_of(*one) < number_of(*other)
}

// Where the arc of least number stands.
fn least_at(indexes: &[i64]) -> usize
    requires { 0 < length indexes.now }
    ensures within { result < length indexes.now }
    ensures least { IsLeastAt indexes.now (length indexes.now) result }
{
    let mut best = 0;
    for at in 1..indexes.len() {
        if is_before(&indexes[at], &indexes[best]) {
            best = at;
        }
    }
    best
}

// The indexes of the chains, in their order.
fn indexes_of_chains(
    alloc: Global,
    arcs: &[Vec<Point>],
    chains: Vec<Vec<Point>>,
) -> Result<Vec<i64>, NoMemory>
    requires rising { IsStrictlySortedBy (slice_cmp point_order) (lists_of arcs.now) }
    requires stored { All (λ chain. IsStoredIn (lists_of arcs.now) chain.items) chains.items }
    ensures in_range { IfOk result (λ indexes. All (IsIndex (lists_of arcs.now)) indexes.items) }
    ensures told { IfOk result (λ indexes. map (arc_at (lists_of arcs.now)) indexes.items ≡ lists_of chains.items) }
{
    let mut indexes = Vec::new(alloc);
    for chain in chains {
        indexes.push(index_of(arcs, chain))?;
    }
    Ok(indexes)
}

/// The indexes of the arcs of the ring in its direction, the arc of least number first.
pub fn indexes_of(
    alloc: Global,
    breaks: &Breaks,
    arcs: &[Vec<Point>],
    ring: &[Point],
) -> Result<Vec<i64>, NoMemory>
    requires ring { IsRing ring.now }
    requires broken { IsBroken breaks.now.ways.items breaks.now.loops.items ring.now }
    requires covered { IsCovered breaks.now.ways.items ring.now }
    requires symmetric { AreSymmetric breaks.now.ways.items }
    requires stored { AreStored breaks.now.ways.items breaks.now.loops.items (lists_of arcs.now) }
    ensures { IfOk result (λ indexes. AreIndexesOf (lists_of arcs.now) ring.now indexes.items) }
{
    let chains = chains_of(alloc, breaks, ring)?;
    let mut indexes = indexes_of_chains(alloc, arcs, chains)?;
    let least = least_at(&indexes);
    indexes.rotate_left(least);
    Ok(indexes)
}
