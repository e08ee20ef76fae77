// Rings cut into chains.
ghost use Rattle.std.specs.Prelude.{◌≡◌, ◌-◌, ◌<◌, ◌≤◌, true, length, get_or, IfOk};
ghost use Rattle.ring_arcs.specs.Breaks.{is_break, IsBroken};
ghost use Rattle.ring_arcs.specs.Chains.{IsCovered, AreCuts, AreChainsOf, round_from};
ghost use Rattle.agg_base.specs.Lists.{lists_of};
ghost use Rattle.plane_edge.specs.Rings.{IsRing};
ghost use Rattle.plane_edge.specs.declared.point.Point.{Point};

use crate::breaks::Breaks;
use agg_base::NoMemory;
use plane_edge::Point;
use std::alloc::Global;

// Where the first break of the ring stands.
fn first_break(breaks: &Breaks, ring: &[Point]) -> usize
    requires { IsBroken breaks.now.ways.items breaks.now.loops.items ring.now }
    ensures within { result < length ring.now }
    ensures break_there { (d : Point) → is_break breaks.now.ways.items breaks.now.loops.items (get_or ring.now result d) ≡ true }
{
    for at in 0..ring.len() {
        if breaks.has(&ring[at]) {
            return at;
        }
    }
    unreachable!()
}

// The points of the ring from that place on round, and that one again.
fn round_from(alloc: Global, ring: &[Point], at: usize) -> Result<Vec<Point>, NoMemory>
    requires { at < length ring.now }
    ensures { IfOk result (λ round. round.items ≡ round_from ring.now at) }
{
    let mut round = Vec::from_slice(alloc, &ring[at..])?;
    round.extend_from_slice(&ring[..at + 1])?;
    Ok(round)
}

// Cuts a path that begins and ends at breaks into its parts between them.
fn parts_of(alloc: Global, breaks: &Breaks, path: &[Point]) -> Result<Vec<Vec<Point>>, NoMemory>
    requires long { 2 ≤ length path.now }
    requires begins { (d : Point) → is_break breaks.now.ways.items breaks.now.loops.items (get_or path.now 0 d) ≡ true }
    requires ends { (d : Point) → is_break breaks.now.ways.items breaks.now.loops.items (get_or path.now (length path.now - 1) d) ≡ true }
    ensures { IfOk result (λ chains. AreCuts (is_break breaks.now.ways.items breaks.now.loops.items) path.now (lists_of chains.items)) }
{
    let mut chains = Vec::new(alloc);
    let mut from = 0;
    for to in 1..path.len() {
        if breaks.has(&path[to]) {
            chains.push(Vec::from_slice(alloc, &path[from..to + 1])?)?;
            from = to;
        }
    }
    Ok(chains)
}

/// The chains of the ring, from a break on round.
pub fn chains_of(
    alloc: Global,
    breaks: &Breaks,
    ring: &[Point],
) -> Result<Vec<Vec<Point>>, NoMemory>
    requires ring { IsRing ring.now }
    requires broken { IsBroken breaks.now.ways.items breaks.now.loops.items ring.now }
    requires covered { IsCovered breaks.now.ways.items ring.now }
    ensures { IfOk result (λ chains. AreChainsOf breaks.now.ways.items breaks.now.loops.items ring.now (lists_of chains.items)) }
{
    let at = first_break(breaks, ring);
    let round = round_from(alloc, ring, at)?;
    parts_of(alloc, breaks, &round)
}
