// That no grouping is feasible, and the void leaf that proves it.
ghost use Rattle.std.specs.Prelude.{◌≤◌, IfOk};
ghost use Rattle.agg_model.specs.Problem.{Grouping, IsFeasible};
ghost use Rattle.greedy_start.specs.Starts.{IsFirstHopeless};
ghost use Rattle.branch_bound.specs.Outcomes.{IsNone};

use agg_base::NoMemory;
use agg_base::limits::AREAS;
use agg_model::Problem;
use bound_rows::{Leaf, Tree};
use hopeless_parts::{part_of, void_leaf};
use std::alloc::Global;

// A void leaf over the part of that area, which nothing can cover.
pub(crate) fn void_tree(alloc: Global, problem: &Problem, area: u32) -> Result<Tree<Leaf>, NoMemory>
    requires first { IsFirstHopeless problem.now area }
    requires none { (g : Grouping) → ¬ IsFeasible problem.now g }
    ensures { IfOk result (λ tree. IsNone problem.now tree) }
{
    prove!(problem.areas() as usize <= AREAS);
    let part = part_of(alloc, problem, area)?;
    let sum = void_leaf(alloc, problem, area, &part)?;
    Ok(Tree::Leaf(Leaf::Sum(sum)))
}
