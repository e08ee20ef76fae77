// Whether a grouping is feasible, drawn, and of the stated cost.
ghost use Rattle.std.specs.Prelude.{◌≡◌, ◌≤◌, OnOk, IfOk, IfErr, Some, length};
ghost use Rattle.agg_base.specs.declared.limits.TheConstants.{AREAS};
ghost use Rattle.agg_model.specs.Problem.{IsNumbered, IsFeasible, areas, cost};
ghost use Rattle.cert_check.specs.Groups.{IsInRange, IsLackFlaw, IsCostFlaw, IsRangesFlaw, IsWorthFlaw, IsWorth, flaw_of_lack};
ghost use Rattle.cert_check.specs.Drawings.{IsDrawn, IsDrawingFlaw};
ghost use Rattle.cert_check.specs.Verdicts.{IsGrouped, IsGroupingFlaw};
ghost use Rattle.cert_check.specs.Stops.{IsStop};

use crate::Verdict;
use crate::drawing::{judge_count, judge_edges, judge_frame, judge_names};
use crate::numbers::{judge_classes, judge_regions};
use crate::stop::Stop;
use agg_base::{NoMemory, Text};
use agg_model::{Grouping, Lack, Problem, cost, feasible};
use cert_text::Certificate;
use coverage_check::Checked;
use plane_edge::Coverage;
use std::alloc::Global;

// The flaw that is a lack of a region.
fn flaw_of_lack(lack: Lack) -> Verdict
    ensures { result ≡ flaw_of_lack lack }
{
    match lack {
        Lack::Empty { region } => Verdict::Empty { region },
        Lack::Loose { region } => Verdict::Loose { region },
        Lack::NoOwn { region } => Verdict::NoOwn { region },
        Lack::TooSmall { region } => Verdict::TooSmall { region },
    }
}

// A number for each area.
fn numbers_for(alloc: Global, problem: &Problem) -> Result<Vec<u32>, NoMemory>
    ensures { IfOk result (λ numbers. length numbers.items ≡ areas problem.now) }
{
    Ok(vec![in alloc; 0u32; problem.areas() as usize]?)
}

// Whether the grouping is feasible.
fn judge_feasible(alloc: Global, problem: &Problem, grouping: &Grouping) -> Result<(), Stop>
    requires { IsNumbered problem.now grouping.now }
    ensures ok { OnOk result (IsFeasible problem.now grouping.now) }
    ensures flaw { IfErr result (IsStop (IsLackFlaw problem.now grouping.now)) }
{
    let mut scratch = numbers_for(alloc, problem)?;
    match feasible(problem, grouping, &mut scratch) {
        Ok(()) => Ok(()),
        Err(lack) => Err(Stop::Flaw(flaw_of_lack(lack))),
    }
}

// Whether the grouping has the stated cost.
fn judge_cost(problem: &Problem, grouping: &Grouping, stated: Option<i128>) -> Result<(), Verdict>
    requires { IsNumbered problem.now grouping.now }
    ensures ok { OnOk result (stated ≡ Some (cost problem.now grouping.now)) }
    ensures flaw { IfErr result (IsCostFlaw problem.now grouping.now stated) }
{
    let due = cost(problem, grouping);
    if stated != Some(due) {
        return Err(Verdict::Cost { due });
    }
    Ok(())
}

// Whether regions and classes are in range.
fn judge_ranges(problem: &Problem, grouping: &Grouping) -> Result<(), Verdict>
    requires areas { length grouping.now.region_of ≤ AREAS }
    requires regions { length grouping.now.class_of ≤ AREAS }
    ensures ok { OnOk result (IsInRange problem.now grouping.now) }
    ensures flaw { IfErr result (IsRangesFlaw problem.now grouping.now) }
{
    judge_regions(grouping)?;
    judge_classes(problem, grouping)?;
    Ok(())
}

// Whether the drawn map shows the grouping.
fn judge_drawing(
    alloc: Global,
    checked: &Checked,
    problem: &Problem,
    names: &[Text],
    drawn: &Coverage,
    grouping: &Grouping,
) -> Result<(), Stop>
    requires areas { length grouping.now.region_of ≡ length checked.now.areas }
    requires few { length grouping.now.class_of ≤ AREAS }
    requires names { length names.now ≡ problem.now.classes }
    requires range { IsInRange problem.now grouping.now }
    ensures ok { OnOk result (IsDrawn checked.now names.now drawn.now grouping.now) }
    ensures flaw { IfErr result (IsStop (IsDrawingFlaw checked.now names.now drawn.now grouping.now)) }
{
    judge_frame(checked.frame(), &drawn.frame)?;
    judge_count(&drawn.areas, grouping)?;
    judge_names(problem, names, &drawn.areas, grouping)?;
    judge_edges(alloc, checked, &drawn.areas, grouping)?;
    Ok(())
}

// Whether the grouping is feasible at the stated cost.
fn judge_worth(
    alloc: Global,
    problem: &Problem,
    grouping: &Grouping,
    stated: Option<i128>,
) -> Result<(), Stop>
    requires { IsNumbered problem.now grouping.now }
    ensures ok { OnOk result (IsWorth problem.now grouping.now stated) }
    ensures flaw { IfErr result (IsStop (IsWorthFlaw problem.now grouping.now stated)) }
{
    judge_feasible(alloc, problem, grouping)?;
    judge_cost(problem, grouping, stated)?;
    Ok(())
}

/// Whether the grouping is in range, drawn, feasible, and of the stated cost.
pub(crate) fn judge_grouping(
    alloc: Global,
    checked: &Checked,
    problem: &Problem,
    names: &[Text],
    drawn: &Coverage,
    certificate: &Certificate,
) -> Result<(), Stop>
    requires map { areas problem.now ≡ length checked.now.areas }
    requires areas { length certificate.now.grouping.region_of ≡ areas problem.now }
    requires few_areas { areas problem.now ≤ AREAS }
    requires few { length certificate.now.grouping.class_of ≤ AREAS }
    requires names { length names.now ≡ problem.now.classes }
    ensures ok { OnOk result (IsGrouped checked.now problem.now names.now drawn.now certificate.now) }
    ensures flaw { IfErr result (IsStop (IsGroupingFlaw checked.now problem.now names.now drawn.now certificate.now)) }
{
    let grouping = &certificate.grouping;
    judge_ranges(problem, grouping)?;
    judge_drawing(alloc, checked, problem, names, drawn, grouping)?;
    judge_worth(alloc, problem, grouping, certificate.cost)?;
    Ok(())
}
