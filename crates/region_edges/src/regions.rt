// The border edges of all regions.
ghost use Rattle.std.specs.Prelude.{◌≡◌, ◌↔◌, ◌<◌, ◌≤◌, ℕ, IfOk, length, pos, ◌<ℤ◌};
ghost use Rattle.agg_base.specs.declared.limits.TheConstants.{AREAS, STEPS};
ghost use Rattle.agg_model.specs.Problem.{region};
ghost use Rattle.coverage_check.specs.Kept.{odds_of};
ghost use Rattle.plane_edge.specs.Edges.{HaveEvenEnds};
ghost use Rattle.plane_edge.specs.Plane.{IsInside};
ghost use Rattle.plane_edge.specs.declared.spot.Spot.{Spot};
ghost use Rattle.plane_strip.specs.Strip.{IsPlanar};
ghost use Rattle.region_edges.specs.PointSets.{IsHeldBy};
ghost use Rattle.region_edges.specs.RegionEdges.{AreBorderOf, edge_count, list_at};
ghost use Rattle.agg_base.specs.Lists.{lists_of};

use crate::gathering::gather;
use crate::sweeping::odd_of_each;
use agg_base::NoMemory;
use agg_model::Grouping;
use coverage_check::Checked;
use plane_edge::Edge;
use std::alloc::Global;

/// The border edges of each region: those that are odd in an odd number of its areas, each once, in rising order. The list of region r
/// stands at place r, and is empty where no area is in the region. Each point is an end of an even number of the edges of a list. The edges of
/// a list meet in common ends only, and a point is inside them exactly where it is inside an area of the region. All lists together have at
/// most `STEPS` edges. The one refusal is want of memory.
pub fn borders(
    alloc: Global,
    checked: &Checked,
    grouping: &Grouping,
) -> Result<Vec<Vec<Edge>>, NoMemory>
    requires one_each { length grouping.now.region_of ≡ length checked.now.areas }
    requires in_range { (v : ℕ) → v < length grouping.now.region_of → region grouping.now v < length grouping.now.class_of }
    requires few { length grouping.now.class_of ≤ AREAS }
    ensures one_each { IfOk result (λ bs. length bs.items ≡ length grouping.now.class_of) }
    ensures borders { IfOk result (λ bs. (r : ℕ) → r < length grouping.now.class_of → AreBorderOf (odds_of checked.now.areas) (region grouping.now) r (list_at (lists_of bs.items) r)) }
    ensures even { IfOk result (λ bs. (r : ℕ) → r < length bs.items → HaveEvenEnds (list_at (lists_of bs.items) r)) }
    ensures planar { IfOk result (λ bs. (r : ℕ) → r < length grouping.now.class_of → IsPlanar (list_at (lists_of bs.items) r)) }
    ensures points { IfOk result (λ bs. (r : ℕ) (s : Spot) → r < length grouping.now.class_of → pos 0 <ℤ s.m → IsInside (list_at (lists_of bs.items) r) s ↔ IsHeldBy (odds_of checked.now.areas) (region grouping.now) r s) }
    ensures few { IfOk result (λ bs. edge_count (lists_of bs.items) ≤ STEPS) }
{
    let edges = gather(alloc, checked, grouping)?;
    let borders = odd_of_each(alloc, edges)?;
    Ok(borders)
}
