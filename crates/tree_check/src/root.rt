// What a tree proves over the domains of the root.
ghost use Rattle.std.specs.Prelude.{◌≤◌, OnOk, IfOk, IfErr};
ghost use Rattle.agg_base.specs.declared.limits.TheConstants.{SPLITS};
ghost use Rattle.row_laws.specs.Trees.{split_count};
ghost use Rattle.tree_check.specs.Nodes.{IsBoundOf, IsSoundAtRoot, IsTreeFault};
ghost use Rattle.tree_check.specs.Laws.{IsFaultOr};

use crate::TreeFault;
use crate::nodes::judge_nodes;
use agg_model::Problem;
use bound_rows::{Bound, Domains, Leaf, Scratch, Tree};
use std::alloc::Global;

/// What a tree is worth over the domains of the root: the least value of its leaves, which holds of every feasible grouping. Else the first
/// fault of its nodes, or want of memory.
///
/// It walks the tree once, and calls itself as deep as the tree is. One set of domains and one scratch serve for all nodes, so that what
/// memory it takes does not grow with the number of leaves.
pub fn judge_tree(alloc: Global, problem: &Problem, tree: &Tree<Leaf>) -> Result<Bound, TreeFault>
    requires { split_count tree.now ≤ SPLITS }
    ensures sound { OnOk result (IsSoundAtRoot problem.now tree.now) }
    ensures bound { IfOk result (λ bound. IsBoundOf problem.now tree.now bound) }
    ensures fault { IfErr result (IsFaultOr (IsTreeFault problem.now tree.now)) }
{
    let mut domains = Domains::whole(alloc, problem)?;
    let mut scratch = Scratch::new(alloc, problem)?;
    let judged = judge_nodes(problem, tree, &mut domains, &mut scratch, 0)?;
    Ok(judged.bound)
}
