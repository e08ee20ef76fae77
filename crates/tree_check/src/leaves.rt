// Whether a leaf proves something.
ghost use Rattle.std.specs.Prelude.{◌≡◌, OnOk, IfOk, IfErr, Ok};
ghost use Rattle.row_laws.specs.Leaves.{IsSoundLeaf, leaf_answer};
ghost use Rattle.bound_rows.specs.Domains.{allows, IsFor};
ghost use Rattle.bound_rows.specs.Scratches.{IsScratchFor};
ghost use Rattle.tree_check.specs.Nodes.{IsFaultOfLeaf, fault_of_unsound, fault_of_weak};

use crate::TreeFault;
use agg_model::Problem;
use bound_rows::{Bound, Domains, Leaf, LeafProof, Scratch, Unsound, Weak};

// The fault of a node whose leaf may not be relied on.
fn fault_of_unsound(node: u32, fault: Unsound) -> TreeFault
    ensures { result ≡ fault_of_unsound node fault }
{
    match fault {
        Unsound::Denominator => TreeFault::Denominator { node },
        Unsound::Row { row } => TreeFault::Row { node, row },
        Unsound::Negative { row } => TreeFault::Negative { node, row },
        Unsound::NotFixed { area } => TreeFault::NotFixed { node, area },
    }
}

// The fault of a node whose leaf is weak.
fn fault_of_weak(node: u32, weak: Weak) -> TreeFault
    ensures { result ≡ fault_of_weak node weak }
{
    match weak {
        Weak::Wide { entry } => TreeFault::Wide { node, entry },
        Weak::NotVoid { total } => TreeFault::NotVoid { node, total },
    }
}

/// What the leaf of a node is worth over these domains.
pub(crate) fn judge_leaf(
    problem: &Problem,
    leaf: &Leaf,
    domains: &Domains,
    scratch: &mut Scratch,
    node: u32,
) -> Result<Bound, TreeFault>
    requires domains { IsFor problem.now domains.now }
    requires scratch { IsScratchFor problem.now scratch.old }
    ensures scratch { IsScratchFor problem.now scratch.new }
    ensures sound { OnOk result (IsSoundLeaf leaf.now problem.now (allows domains.now)) }
    ensures bound { IfOk result (λ bound. leaf_answer leaf.now problem.now (allows domains.now) ≡ Ok bound) }
    ensures fault { IfErr result (IsFaultOfLeaf problem.now leaf.now (allows domains.now) node) }
{
    if let Err(fault) = leaf.sound(problem, domains) {
        return Err(fault_of_unsound(node, fault));
    }
    match leaf.value(problem, domains, scratch) {
        Ok(bound) => Ok(bound),
        Err(weak) => Err(fault_of_weak(node, weak)),
    }
}
