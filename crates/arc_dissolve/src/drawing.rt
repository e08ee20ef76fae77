// The map of a grouping.
ghost use Rattle.std.specs.Prelude.{◌≡◌, ◌<◌, ◌≤◌, ℕ, length, sum, slice_index, All, IfOk};
ghost use Rattle.agg_model.specs.Problem.{region, class_in};
ghost use Rattle.coverage_check.specs.Kept.{odds_of};
ghost use Rattle.arc_dissolve.specs.Drawing.{IsDrawingOf};
ghost use Rattle.arc_dissolve.specs.Parts.{parts, IsShapeOfRings, AreShapesOfParts};
ghost use Rattle.arc_dissolve.specs.Rings.{IsDrawnRing};
ghost use Rattle.agg_base.specs.Lists.{lists_of};

use crate::groups::{all_rings, flatten};
use crate::polygons::polygons_of;
use crate::shapes::{Regions, Shape};
use agg_base::limits::AREAS;
use agg_base::{NoMemory, Text};
use agg_model::Grouping;
use coverage_check::Checked;
use plane_edge::Point;
use region_edges::borders;
use ring_arcs::arcs_of;
use std::alloc::Global;

// The shape of some rings.
fn shape_of(
    alloc: Global,
    arcs: &[Vec<Point>],
    rings: &[Vec<i64>],
    name: &Text,
) -> Result<Shape, NoMemory>
    requires { All (λ ring. IsDrawnRing (lists_of arcs.now) ring.items) rings.now }
    ensures { IfOk result (λ shape. IsShapeOfRings (lists_of arcs.now) (lists_of rings.now) name.now shape) }
{
    let class = name.copy(alloc)?;
    let polygons = polygons_of(alloc, arcs, rings)?;
    Ok(Shape { class, polygons })
}

// The shapes of regions that have so many rings each, the first region the first ones.
fn shapes_of(
    alloc: Global,
    arcs: &[Vec<Point>],
    rings: &[Vec<i64>],
    counts: &[usize],
    classes: &[u8],
    names: &[Text],
) -> Result<Vec<Shape>, NoMemory>
    requires rings { All (λ ring. IsDrawnRing (lists_of arcs.now) ring.items) rings.now }
    requires counts { sum counts.now ≤ length rings.now }
    requires one_each { length classes.now ≡ length counts.now }
    requires classes { (r : ℕ) → r < length classes.now → slice_index classes.now r < length names.now }
    ensures { IfOk result (λ shapes. AreShapesOfParts (lists_of arcs.now) (parts counts.now (lists_of rings.now)) classes.now names.now (length counts.now) shapes.items) }
{
    let mut shapes = Vec::new(alloc);
    let mut left = rings;
    for region in 0..counts.len() {
        let (own, others) = left.split_at(counts[region]);
        let name = &names[classes[region] as usize];
        shapes.push(shape_of(alloc, arcs, own, name)?)?;
        left = others;
    }
    Ok(shapes)
}

/// The map of a grouping: one shape for each region, with the name of its class.
///
/// A border edge is an edge that is odd in an odd number of the areas of some region. Each border edge stands in one arc, once, and an arc has
/// no other edge. The rings of a shape go along each border edge of its region once, with the region on their left, and along no other edge;
/// none visits a point twice. A ring is a shell where the sum of `x1 * y2 - x2 * y1` over its steps is above 0, else a hole. A shell is a
/// candidate for a hole where, by the shell's edges alone, the middle of the hole's least edge is inside it. A hole stands with the candidate of
/// the least sum, at a tie with the one of the lesser first arc; without a candidate it is a polygon of its own. Polygons are in the order of the
/// first arcs of their first rings, and holes in that of their own.
///
/// The one refusal is want of memory.
pub fn dissolve(
    alloc: Global,
    checked: &Checked,
    grouping: &Grouping,
    names: &[Text],
) -> Result<Regions, NoMemory>
    requires one_each { length grouping.now.region_of ≡ length checked.now.areas }
    requires in_range { (v : ℕ) → v < length grouping.now.region_of → region grouping.now v < length grouping.now.class_of }
    requires few { length grouping.now.class_of ≤ AREAS }
    requires classes { (r : ℕ) → r < length grouping.now.class_of → class_in grouping.now r < length names.now }
    ensures { IfOk result (λ regions. IsDrawingOf (odds_of checked.now.areas) grouping.now names.now regions) }
{
    let borders = borders(alloc, checked, grouping)?;
    let groups = flatten(alloc, all_rings(alloc, &borders)?)?;
    let drawn = arcs_of(alloc, &groups.rings)?;
    let shapes = shapes_of(
        alloc,
        &drawn.arcs,
        &drawn.rings,
        &groups.counts,
        &grouping.class_of,
        names,
    )?;
    let arcs = drawn.arcs;
    Ok(Regions { arcs, shapes })
}
