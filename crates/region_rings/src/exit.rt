// Ways in the order in which walks leave points.
ghost use Rattle.std.specs.Prelude.{◌≡◌, ℕ, ◌<◌, length, slice_index_or, IfOk};
ghost use Rattle.region_rings.specs.declared.exit.Exit.{Exit};
ghost use Rattle.std.specs.Ordering.{is_lt};
ghost use Rattle.region_rings.specs.Exits.{right, aim_of, is_past, is_met_before, exit_at, AreExitsOf};
ghost use Rattle.region_rings.specs.Turning.{parts_of};
ghost use Rattle.region_rings.specs.Ways.{way_at};
ghost use Rattle.region_rings.specs.declared.way.Way.{Way};

use crate::heading::Heading;
use crate::turning::{heading, is_sooner};
use crate::way::{Way, other_end};
use agg_base::NoMemory;
use plane_edge::{Edge, Point};
use std::alloc::Global;
use std::cmp::Ordering;

/// A way, which leads away from the point where it begins, and the number of its edge.
#[derive(Clone, Copy, Debug)]
pub struct Exit {
    pub way: Way,
    pub edge: usize,
}

// The direction along x.
fn right() -> Heading
    ensures { parts_of result ≡ right }
{
    Heading { x: 1, y: 0 }
}

// The direction of the way where it begins.
fn aim_of(way: &Way) -> Heading
    ensures { parts_of result ≡ aim_of way.now }
{
    let tail = way.tail();
    heading(&tail, &other_end(&way.edge, &tail))
}

/// Whether the way begins at a greater point, or at the point and a clockwise turn from the direction along x meets the direction before the way.
pub fn is_past(way: &Way, at: &Point, aim: &Heading) -> bool
    ensures { result ≡ is_past at.now (parts_of aim.now) way.now }
{
    if way.is_from(at) {
        is_sooner(&right(), aim, &aim_of(way))
    } else {
        way.is_above(at)
    }
}

// Whether the first exit stands before the second.
fn is_met_before(one: &Exit, other: &Exit) -> bool
    ensures { result ≡ is_met_before one.now other.now }
{
    is_past(&other.way, &one.way.tail(), &aim_of(&one.way))
}

// Which of two exits stands first.
fn compare(one: &Exit, other: &Exit) -> Ordering
    ensures { is_lt result ≡ is_met_before one.now other.now }
{
    if is_met_before(one, other) {
        Ordering::Less
    } else if is_met_before(other, one) {
        Ordering::Greater
    } else {
        Ordering::Equal
    }
}

// The way of the edge of that number.
fn way_of(edges: &[Edge], leftward: &[bool], edge: usize) -> Way
    requires sides { length leftward.now ≡ length edges.now }
    requires edge { edge < length edges.now }
    ensures { (d : Way) → result ≡ way_at edges.now leftward.now edge d }
{
    Way {
        edge: edges[edge],
        is_leftward: leftward[edge],
    }
}

// The way of each edge, edge by edge.
fn gather(alloc: Global, edges: &[Edge], leftward: &[bool]) -> Result<Vec<Exit>, NoMemory>
    requires { length leftward.now ≡ length edges.now }
    ensures count { IfOk result (λ exits. length exits.items ≡ length edges.now) }
    ensures each { IfOk result (λ exits. (k : ℕ) (d : Exit) → k < length edges.now → slice_index_or exits.items k d ≡ exit_at edges.now leftward.now k d) }
{
    let mut exits = Vec::with_capacity(alloc, edges.len())?;
    for edge in 0..edges.len() {
        let way = way_of(edges, leftward, edge);
        exits.push(Exit { way, edge })?;
    }
    Ok(exits)
}

/// The ways of all edges in the order of the points where they begin, and at each point in the order in which a clockwise turn meets them.
pub fn exits_of(alloc: Global, edges: &[Edge], leftward: &[bool]) -> Result<Vec<Exit>, NoMemory>
    requires { length leftward.now ≡ length edges.now }
    ensures { IfOk result (λ exits. AreExitsOf edges.now leftward.now exits.items) }
{
    let mut exits = gather(alloc, edges, leftward)?;
    exits.sort_unstable_by(|one, other| compare(one, other));
    Ok(exits)
}
