// Coverages from areas that may be too many.
ghost use Rattle.std.specs.Prelude.{◌≡◌, ◌≤◌, ◌↔◌, IsTrue, IfSome, IfNone};
ghost use Rattle.plane_edge.specs.Limits.{IsWithinLimits};
ghost use Rattle.plane_edge.specs.Rings.{step_count};

use crate::area::Area;
use crate::coverage::Coverage;
use crate::frame::Frame;
use agg_base::limits::{AREAS, STEPS, TEXT_BYTES};

impl Coverage {
    /// The coverage of these areas; `None` exactly where a limit of the type is passed.
    pub fn of(areas: Vec<Area>, passed: u32, frame: Frame) -> Option<Coverage>
        ensures areas { IfSome result (λ c. c.areas ≡ areas) }
        ensures passed { IfSome result (λ c. c.passed ≡ passed) }
        ensures frame { IfSome result (λ c. c.frame ≡ frame) }
        ensures within { IfSome result (λ c. IsWithinLimits areas.items passed) }
        ensures beyond { IfNone result (¬ IsWithinLimits areas.items passed) }
    {
        let few_steps = has_few_steps(&areas);
        if areas.len() > AREAS || passed as usize > TEXT_BYTES || !few_steps {
            return None;
        }
        Some(Coverage {
            areas,
            passed,
            frame,
        })
    }
}

// Whether the areas have no more steps together than a coverage may have.
fn has_few_steps(areas: &[Area]) -> bool
    ensures { IsTrue result ↔ (step_count areas.now ≤ STEPS) }
{
    let mut total = 0;
    for area in areas {
        let steps = area.steps().len();
        if steps > STEPS - total {
            return false;
        }
        total += steps;
    }
    true
}
