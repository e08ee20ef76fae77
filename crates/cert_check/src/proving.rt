// Whether the tree of a certificate proves what is stated.
ghost use Rattle.std.specs.Prelude.{◌↔◌, ◌≤◌, ◌≡◌, ◌≤ℤ◌, ◌<ℤ◌, IsTrue, OnOk, IfOk, IfErr};
ghost use Rattle.agg_base.specs.declared.limits.TheConstants.{SPLITS};
ghost use Rattle.row_laws.specs.Trees.{split_count};
ghost use Rattle.tree_check.specs.Nodes.{IsSoundAtRoot, IsBoundOf};
ghost use Rattle.cert_check.specs.Verdicts.{IsTreeFlaw, IsBoundFlaw, IsStatusOf, IsStatusFlaw, HasBound, AreBoth, IsProved, IsProofFlaw, stated_as};
ghost use Rattle.cert_check.specs.Stops.{IsStop, IsStopOf};

use crate::Verdict;
use crate::stop::Stop;
use agg_model::Problem;
use bound_rows::{Bound, Leaf, Tree};
use cert_text::{CertStatus, Certificate};
use std::alloc::Global;
use tree_check::{TreeFault, judge_tree};

// What a fault of a tree makes the judge stop with.
fn stop_of(fault: TreeFault) -> Stop
    ensures { IsStopOf fault result }
{
    match fault {
        TreeFault::Split { node } => Stop::Flaw(Verdict::Split { node }),
        TreeFault::Denominator { node } => Stop::Flaw(Verdict::Denominator { node }),
        TreeFault::Row { node, row } => Stop::Flaw(Verdict::Row { node, row }),
        TreeFault::Negative { node, row } => Stop::Flaw(Verdict::Negative { node, row }),
        TreeFault::NotFixed { node, area } => Stop::Flaw(Verdict::NotFixed { node, area }),
        TreeFault::NotVoid { node, total } => Stop::Flaw(Verdict::NotVoid { node, total }),
        TreeFault::Wide { node, entry } => Stop::Flaw(Verdict::Wide { node, entry }),
        TreeFault::Memory => Stop::Memory,
    }
}

// What the tree is worth over the domains of the root.
fn judge_root(alloc: Global, problem: &Problem, tree: &Tree<Leaf>) -> Result<Bound, Stop>
    requires { split_count tree.now ≤ SPLITS }
    ensures sound { OnOk result (IsSoundAtRoot problem.now tree.now) }
    ensures bound { IfOk result (λ bound. IsBoundOf problem.now tree.now bound) }
    ensures flaw { IfErr result (IsStop (IsTreeFlaw problem.now tree.now)) }
{
    match judge_tree(alloc, problem, tree) {
        Ok(bound) => Ok(bound),
        Err(fault) => Err(stop_of(fault)),
    }
}

// How a certificate states a bound.
fn stated_as(bound: Bound) -> Option<i128>
    ensures { result ≡ stated_as bound }
{
    match bound {
        Bound::Least(number) => Some(number),
        Bound::Void => None,
    }
}

// Whether the bound is the stated one.
fn judge_bound(
    problem: &Problem,
    tree: &Tree<Leaf>,
    bound: Bound,
    stated: Option<i128>,
) -> Result<(), Verdict>
    requires { IsBoundOf problem.now tree.now bound }
    ensures ok { OnOk result (HasBound problem.now tree.now stated) }
    ensures flaw { IfErr result (IsBoundFlaw problem.now tree.now stated) }
{
    let _ = problem;
    let _ = tree;
    let due = stated_as(bound);
    if stated != due {
        return Err(Verdict::Bound { due });
    }
    Ok(())
}

// Whether both numbers are there, and the bound is not below the cost.
fn is_reached(bound: Option<i128>, cost: Option<i128>) -> bool
    ensures { IsTrue result ↔ AreBoth bound cost (λ b c. c ≤ℤ b) }
{
    match (bound, cost) {
        (Some(bound), Some(cost)) => cost <= bound,
        (Some(_), None) => false,
        (None, _) => false,
    }
}

// Whether both numbers are there, and the bound is below the cost.
fn is_missed(bound: Option<i128>, cost: Option<i128>) -> bool
    ensures { IsTrue result ↔ AreBoth bound cost (λ b c. b <ℤ c) }
{
    match (bound, cost) {
        (Some(bound), Some(cost)) => bound < cost,
        (Some(_), None) => false,
        (None, _) => false,
    }
}

// Whether the status is that of a bound and a cost.
fn is_status_of(status: CertStatus, bound: Option<i128>, cost: Option<i128>) -> bool
    ensures { IsTrue result ↔ IsStatusOf status bound cost }
{
    match status {
        CertStatus::Optimal => is_reached(bound, cost),
        CertStatus::Within => is_missed(bound, cost),
        CertStatus::Hopeless => true,
    }
}

// Whether the status is right.
fn judge_status(status: CertStatus, bound: Option<i128>, cost: Option<i128>) -> Result<(), Verdict>
    ensures ok { OnOk result (IsStatusOf status bound cost) }
    ensures flaw { IfErr result (IsStatusFlaw status bound cost) }
{
    if !is_status_of(status, bound, cost) {
        return Err(Verdict::Status);
    }
    Ok(())
}

/// Whether the tree is sound, its bound is the stated one, and the status is right.
pub(crate) fn judge_proof(
    alloc: Global,
    problem: &Problem,
    certificate: &Certificate,
) -> Result<(), Stop>
    requires { split_count certificate.now.tree ≤ SPLITS }
    ensures ok { OnOk result (IsProved problem.now certificate.now) }
    ensures flaw { IfErr result (IsStop (IsProofFlaw problem.now certificate.now)) }
{
    let bound = judge_root(alloc, problem, &certificate.tree)?;
    judge_bound(problem, &certificate.tree, bound, certificate.bound)?;
    judge_status(certificate.status, certificate.bound, certificate.cost)?;
    Ok(())
}
