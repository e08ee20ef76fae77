// The points at which rings are cut into chains.
ghost use Rattle.std.specs.List.Sorted.{IsSorted};
ghost use Rattle.ring_arcs.specs.Ways.{point_order, way_order};

use crate::loops::loops_of;
use crate::nodes::is_node;
use crate::ways::ways_of;
use agg_base::NoMemory;
use plane_edge::Point;
use std::alloc::Global;

/// The points at which rings are cut into chains: the nodes, and the least point of each ring that
/// has none.
#[derive(Drop)]
pub struct Breaks {
    /// The ways along the border edges, from either end, in order and each once.
    pub ways: Vec<(Point, Point)>,
    /// The least points of the rings without nodes, in order.
    pub loops: Vec<Point>,
    ghost ways_sorted: { IsSorted way_order ways.items },
    ghost loops_sorted: { IsSorted point_order loops.items },
}

impl Breaks {
    ghost use Rattle.std.specs.Prelude.{◌≡◌, IfOk, All, ◌<◌, length};
    ghost use Rattle.ring_arcs.specs.Breaks.{is_break, IsBroken};
    ghost use Rattle.agg_base.specs.Lists.{lists_of};
    ghost use Rattle.ring_arcs.specs.Rings.{steps_of_rings};
    ghost use Rattle.ring_arcs.specs.Ways.{AreWaysOf};

    /// The breaks of the rings. None of them is empty.
    pub fn of(alloc: Global, rings: &[Vec<Point>]) -> Result<Breaks, NoMemory>
        requires { All (λ ring. 0 < length ring.items) rings.now }
        ensures ways { IfOk result (λ b. AreWaysOf (steps_of_rings (lists_of rings.now)) b.ways.items) }
        ensures broken { IfOk result (λ b. All (λ ring. IsBroken b.ways.items b.loops.items ring.items) rings.now) }
    {
        let ways = ways_of(alloc, rings)?;
        let loops = loops_of(alloc, &ways, rings)?;
        Ok(Breaks { ways, loops })
    }

    /// Whether rings are cut at the point.
    pub fn has(&self, point: &Point) -> bool
        ensures { result ≡ is_break self.now.ways.items self.now.loops.items point.now }
    {
        is_node(&self.ways, point) || self.loops.binary_search(point).is_ok()
    }
}
