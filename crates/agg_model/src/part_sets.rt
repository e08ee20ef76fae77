// The parts of a problem: the sets of areas that links join.
ghost use Rattle.std.specs.Prelude.{◌≡◌, [], IfOk, length, slice_index};
ghost use Rattle.union_find.specs.Sets.{AreSets};
ghost use Rattle.agg_model.specs.Problem.{areas};
ghost use Rattle.agg_model.specs.Parts.{AreParts};

use crate::Problem;
use agg_base::NoMemory;
use std::alloc::Global;
use union_find::Forest;

/// For each area, the least area that walks along links reach. Its one refusal is want of memory.
pub fn parts(alloc: Global, problem: &Problem) -> Result<Vec<u32>, NoMemory>
    ensures length { IfOk result (λ parts. length parts.items ≡ areas problem.now) }
    ensures parts { IfOk result (λ parts. AreParts problem.now (λ v. slice_index parts.items v)) }
{
    let mut forest = Forest::of(alloc, problem.areas())?;
    join_links(&mut forest, problem);
    Ok(forest.least_members())
}

// Joins the ends of each link, where each area stood alone.
fn join_links(forest: &mut Forest, problem: &Problem)
    requires members { length forest.old ≡ areas problem.now }
    requires alone { AreSets [] forest.old }
    ensures members { length forest.new ≡ length forest.old }
    ensures parts { AreParts problem.now (λ v. slice_index forest.new v) }
{
    for link in 0..problem.link_count() {
        let link = problem.link(link);
        forest.join(link.a, link.b);
    }
}
