// Whether the numbers of a certificate are in range.
ghost use Rattle.std.specs.Prelude.{◌≡◌, ◌≤◌, OnOk, IfErr, length};
ghost use Rattle.agg_base.specs.declared.limits.TheConstants.{AREAS};
ghost use Rattle.agg_model.specs.Problem.{areas};
ghost use Rattle.cert_check.specs.Groups.{AreRegionsKnown, AreClassesKnown, IsAreasFlaw, IsRangeFlaw, IsClassFlaw};

use crate::Verdict;
use agg_model::{Grouping, Problem};

/// Whether there are as many areas as the problem has.
pub(crate) fn judge_areas(problem: &Problem, stated: u32) -> Result<(), Verdict>
    ensures ok { OnOk result (stated ≡ areas problem.now) }
    ensures flaw { IfErr result (IsAreasFlaw problem.now stated) }
{
    let due = problem.areas();
    if stated != due {
        return Err(Verdict::Areas { due });
    }
    Ok(())
}

/// Whether the region of each area is below the number of regions.
pub(crate) fn judge_regions(grouping: &Grouping) -> Result<(), Verdict>
    requires few { length grouping.now.region_of ≤ AREAS }
    ensures ok { OnOk result (AreRegionsKnown grouping.now) }
    ensures flaw { IfErr result (IsRangeFlaw grouping.now) }
{
    let regions = grouping.class_of.len();
    for area in 0..grouping.region_of.len() as u32 {
        if grouping.region(area) as usize >= regions {
            return Err(Verdict::Range { area });
        }
    }
    Ok(())
}

/// Whether the class of each region is a class of the problem.
pub(crate) fn judge_classes(problem: &Problem, grouping: &Grouping) -> Result<(), Verdict>
    requires few { length grouping.now.class_of ≤ AREAS }
    ensures ok { OnOk result (AreClassesKnown problem.now grouping.now) }
    ensures flaw { IfErr result (IsClassFlaw problem.now grouping.now) }
{
    let classes = problem.classes();
    for region in 0..grouping.regions() {
        if grouping.class(region) >= classes {
            return Err(Verdict::ClassRange { region });
        }
    }
    Ok(())
}
