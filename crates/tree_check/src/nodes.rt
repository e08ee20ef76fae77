// Whether the nodes of a tree are sound.
ghost use Rattle.std.specs.Prelude.{◌≡◌, ◌↔◌, ◌<◌, ◌+◌, ◌^◌, ℕ, IsTrue, OnOk, IfOk, IfErr, Some, slice_set};
ghost use Rattle.agg_model.specs.Problem.{IsProblem};
ghost use Rattle.row_laws.specs.Trees.{bound_of, lesser_bound, only, without};
ghost use Rattle.row_laws.specs.Leaves.{leaf_answer};
ghost use Rattle.bound_rows.specs.Domains.{allows, IsFor};
ghost use Rattle.bound_rows.specs.Scratches.{IsScratchFor};
ghost use Rattle.tree_check.specs.Nodes.{IsSound, IsNodeFault, IsGoodSplit, IsSplitFault, node_count};

use crate::TreeFault;
use crate::leaves::judge_leaf;
use agg_model::Problem;
use bound_rows::{Bound, Domains, Leaf, Scratch, Tree};

/// What a sound tree is worth, and the number of the node behind its last one.
#[derive(Clone, Copy)]
pub(crate) struct Judged {
    /// The least value of the leaves.
    pub bound: Bound,
    /// The number of the next node.
    pub next: u32,
}

// The lesser of two bounds, where a void one is greater than every number.
fn lesser_bound(a: Bound, b: Bound) -> Bound
    ensures { result ≡ lesser_bound a b }
{
    match (a, b) {
        (Bound::Least(x), Bound::Least(y)) => Bound::Least(x.min(y)),
        (Bound::Least(x), Bound::Void) => Bound::Least(x),
        (Bound::Void, b) => b,
    }
}

// Whether the class is allowed for the area, and another one too.
fn is_good_split(problem: &Problem, domains: &Domains, area: u32, class: u8) -> bool
    requires { IsFor problem.now domains.now }
    ensures { IsTrue result ↔ IsGoodSplit problem.now (allows domains.now) area class }
{
    if area >= problem.areas() || class >= problem.classes() {
        return false;
    }
    domains.allows(area, class) && !domains.single(area)
}

// Whether a node splits one of two or more allowed classes of an area.
fn judge_split(
    problem: &Problem,
    domains: &Domains,
    area: u32,
    class: u8,
    node: u32,
) -> Result<(), TreeFault>
    requires { IsFor problem.now domains.now }
    ensures ok { OnOk result (IsGoodSplit problem.now (allows domains.now) area class) }
    ensures fault { IfErr result (IsSplitFault problem.now (allows domains.now) area class node) }
{
    if !is_good_split(problem, domains, area, class) {
        return Err(TreeFault::Split { node });
    }
    Ok(())
}

// Gives the area the class alone, on the way to the `yes` child of a good split.
fn give_class(problem: &Problem, domains: &mut Domains, area: u32, class: u8)
    requires rules { IsProblem problem.now }
    requires domains { IsFor problem.now domains.old }
    requires good { IsGoodSplit problem.now (allows domains.old) area class }
    ensures domains { IsFor problem.now domains.new }
    ensures allowed { allows domains.new ≡ only (allows domains.old) area class }
    ensures rest { (set : ℕ) → slice_set domains.new area set ≡ slice_set domains.old area set }
{
    let _ = problem;
    domains.only(area, class);
}

// Takes the class from the area, on the way to the `no` child of a good split.
fn take_class(problem: &Problem, domains: &mut Domains, area: u32, class: u8)
    requires rules { IsProblem problem.now }
    requires domains { IsFor problem.now domains.old }
    requires good { IsGoodSplit problem.now (allows domains.old) area class }
    ensures domains { IsFor problem.now domains.new }
    ensures allowed { allows domains.new ≡ without (allows domains.old) area class }
    ensures rest { (set : ℕ) → slice_set domains.new area set ≡ slice_set domains.old area set }
{
    let _ = problem;
    domains.without(area, class);
}

/// What the tree is worth over these domains, where its first node has this number. It calls itself as deep as the tree is. The domains are
/// changed on the way down and changed back on the way up; after a fault they may be left changed.
pub(crate) fn judge_nodes(
    problem: &Problem,
    tree: &Tree<Leaf>,
    domains: &mut Domains,
    scratch: &mut Scratch,
    node: u32,
) -> Result<Judged, TreeFault>
    requires rules { IsProblem problem.now }
    requires domains { IsFor problem.now domains.old }
    requires scratch { IsScratchFor problem.now scratch.old }
    requires nodes { node + node_count tree.now < 2 ^ 32 }
    ensures domains { OnOk result (domains.new ≡ domains.old) }
    ensures scratch { OnOk result (IsScratchFor problem.now scratch.new) }
    ensures sound { OnOk result (IsSound problem.now tree.now (allows domains.old)) }
    ensures bound { IfOk result (λ judged. bound_of leaf_answer problem.now tree.now (allows domains.old) ≡ Some judged.bound) }
    ensures next { IfOk result (λ judged. judged.next ≡ node + node_count tree.now) }
    ensures fault { IfErr result (IsNodeFault problem.now tree.now (allows domains.old) node) }
{
    match tree {
        Tree::Leaf(leaf) => {
            let bound = judge_leaf(problem, leaf, domains, scratch, node)?;
            Ok(Judged {
                bound,
                next: node + 1,
            })
        }
        Tree::Split {
            area,
            class,
            yes,
            no,
        } => {
            judge_split(problem, domains, *area, *class, node)?;
            let set = domains.set_of(*area);
            give_class(problem, domains, *area, *class);
            let first = judge_nodes(problem, yes, domains, scratch, node + 1)?;
            domains.restore(*area, set);
            take_class(problem, domains, *area, *class);
            let second = judge_nodes(problem, no, domains, scratch, first.next)?;
            domains.restore(*area, set);
            Ok(Judged {
                bound: lesser_bound(first.bound, second.bound),
                next: second.next,
            })
        }
    }
}
