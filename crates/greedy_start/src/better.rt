// Groupings that cost less than a known one, found from wanted classes.
ghost use Rattle.std.specs.Prelude.{IfOk, IfSome, ◌<ℤ◌};
ghost use Rattle.agg_model.specs.Problem.{IsFeasible, cost};
ghost use Rattle.greedy_start.specs.Starts.{IsNumberedByLeast};

use crate::orders::is_in_order;
use agg_base::NoMemory;
use agg_model::{Grouping, Problem, cost};
use std::alloc::Global;
use window_search::search_near;

/// A feasible grouping that costs less than the given one, where so many turns find one from wanted classes, one for each area. Its regions are
/// numbered by their least areas. The same input gives the same answer on every machine. Its one refusal is want of memory.
pub fn cheaper_from(
    alloc: Global,
    problem: &Problem,
    grouping: &Grouping,
    wanted: &[u8],
    turns: u64,
) -> Result<Option<Grouping>, NoMemory>
    requires { IsFeasible problem.now grouping.now }
    ensures found { IfOk result (λ found. IfSome found (λ g. IsFeasible problem.now g × IsNumberedByLeast problem.now g)) }
    ensures less { IfOk result (λ found. IfSome found (λ g. cost problem.now g <ℤ cost problem.now grouping.now)) }
{
    let found = search_near(alloc, problem, grouping, wanted, turns)?;
    if !is_in_order(&found.region_of) {
        return Ok(None);
    }
    if cost(problem, &found) >= cost(problem, grouping) {
        return Ok(None);
    }
    Ok(Some(found))
}
