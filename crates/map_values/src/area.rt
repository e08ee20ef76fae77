// Areas within the limit of steps.
ghost use Rattle.std.specs.Prelude.{◌≤◌, IfOk, IfSome, IfNone};
ghost use Rattle.agg_base.specs.declared.limits.TheConstants.{STEPS};
ghost use Rattle.agg_base.specs.Lists.{lists_of};
ghost use Rattle.map_values.specs.Measured.{IsMeasured, HaveManySteps};

use agg_base::limits::STEPS;
use agg_base::{NoMemory, Text};
use plane_edge::{Area, Point};
use std::alloc::Global;

/// The area of some rings, where so many steps have come before.
///
/// Each ring is a cyclic list of points, which may tell its first point again at the end; the steps are those of non-zero length. `None`
/// comes exactly where the steps so far and these pass `agg_base::limits::STEPS`.
pub fn area_of(
    alloc: Global,
    class: Text,
    rings: &[Vec<Point>],
    before: usize,
) -> Result<Option<Area>, NoMemory>
    requires { before ≤ STEPS }
    ensures found { IfOk result (λ o. IfSome o (λ area. IsMeasured class (lists_of rings.now) before area)) }
    ensures none { IfOk result (λ o. IfNone o (HaveManySteps (lists_of rings.now) before)) }
{
    let area = Area::of_rings(alloc, class, rings)?;
    if area.steps().len() > STEPS - before {
        return Ok(None);
    }
    Ok(Some(area))
}
