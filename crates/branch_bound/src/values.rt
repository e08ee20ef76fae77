// What offers and leaves are worth over domains.
ghost use Rattle.std.specs.Prelude.{◌≡◌, ◌≤◌, ℕ, Ok, IfOk, IfSome, IfNone};
ghost use Rattle.agg_base.specs.declared.limits.TheConstants.{DEPTH};
ghost use Rattle.agg_model.specs.Problem.{IsProblem, areas};
ghost use Rattle.row_laws.specs.Values.{RowSum};
ghost use Rattle.row_laws.specs.Fixed.{AreSingle, fixed_value, kind_in};
ghost use Rattle.row_laws.specs.FirstSums.{plain_sum};
ghost use Rattle.row_laws.specs.Leaves.{leaf_answer};
ghost use Rattle.row_laws.specs.declared.leaf.Leaf.{Leaf};
ghost use Rattle.row_laws.specs.declared.leaf.Leaf.TheVariants.{Sum};
ghost use Rattle.bound_rows.specs.Domains.{allows, IsFor};
ghost use Rattle.bound_rows.specs.Offers.{IsValueOf};
ghost use Rattle.bound_rows.specs.Scratches.{IsScratchFor};
ghost use Rattle.branch_bound.specs.Trees.{IsTipOver};

use crate::tips::{Tip, is_less};
use agg_base::NoMemory;
use agg_model::Problem;
use bound_rows::{Bound, Domains, Leaf, LeafProof, RowSum, Scratch, marks};
use std::alloc::Global;

// The tip over domains: `Fixed` where each area has one class; else the offer where it is usable or the sum without rows, or the leaf that its
// parent had, where that is usable and worth more.
pub(crate) fn tip_over(
    alloc: Global,
    problem: &Problem,
    domains: &Domains,
    offer: RowSum,
    from: &Leaf,
    depth: u32,
    share: u64,
    scratch: &mut Scratch,
) -> Result<Tip, NoMemory>
    requires rules { IsProblem problem.now }
    requires domains { IsFor problem.now domains.now }
    requires shallow { depth ≤ DEPTH }
    requires scratch { IsScratchFor problem.now scratch.old }
    ensures scratch { IsScratchFor problem.now scratch.new }
    ensures tip { IfOk result (λ tip. IsTipOver problem.now share (λ _ sum. sum ≡ offer) from.now (allows domains.now) depth tip) }
{
    if let Some(bound) = single_value(problem, domains, scratch) {
        return Ok(Tip {
            leaf: Leaf::Fixed,
            bound,
            depth,
        });
    }
    let tip = offered_tip(alloc, problem, domains, offer, depth, share, scratch);
    match from {
        Leaf::Fixed => Ok(tip),
        Leaf::Sum(sum) => better_tip(alloc, problem, domains, tip, sum, share, scratch),
    }
}

// The tip of an offer, where it is usable, else of the sum without rows.
fn offered_tip(
    alloc: Global,
    problem: &Problem,
    domains: &Domains,
    offer: RowSum,
    depth: u32,
    share: u64,
    scratch: &mut Scratch,
) -> Tip
    requires rules { IsProblem problem.now }
    requires domains { IsFor problem.now domains.now }
    requires shallow { depth ≤ DEPTH }
    requires several { ¬ AreSingle problem.now (allows domains.now) (areas problem.now) }
    requires scratch { IsScratchFor problem.now scratch.old }
    ensures scratch { IsScratchFor problem.now scratch.new }
    ensures tip { (from : Leaf) → IsTipOver problem.now share (λ _ sum. sum ≡ offer) from (allows domains.now) depth result }
{
    match usable_value(&offer, problem, domains, share, scratch) {
        Some(bound) => Tip {
            leaf: Leaf::Sum(offer),
            bound,
            depth,
        },
        None => plain_tip(alloc, problem, domains, depth, scratch),
    }
}

// The tip, or one with the sum that its parent had, where that is usable and worth more.
fn better_tip(
    alloc: Global,
    problem: &Problem,
    domains: &Domains,
    tip: Tip,
    sum: &RowSum,
    share: u64,
    scratch: &mut Scratch,
) -> Result<Tip, NoMemory>
    requires domains { IsFor problem.now domains.now }
    requires several { ¬ AreSingle problem.now (allows domains.now) (areas problem.now) }
    requires scratch { IsScratchFor problem.now scratch.old }
    ensures scratch { IsScratchFor problem.now scratch.new }
    ensures tip { (offer : RowSum) (d : ℕ) → IsTipOver problem.now share (λ _ s. s ≡ offer) (Sum sum.now) (allows domains.now) d tip → IfOk result (λ better. IsTipOver problem.now share (λ _ s. s ≡ offer) (Sum sum.now) (allows domains.now) d better) }
{
    let Some(bound) = usable_value(sum, problem, domains, share, scratch) else {
        return Ok(tip);
    };
    if !is_less(tip.bound, bound) {
        return Ok(tip);
    }
    let sum = sum.copy(alloc)?;
    Ok(Tip {
        leaf: Leaf::Sum(sum),
        bound,
        depth: tip.depth,
    })
}

// What the domains are worth, where each area has one class.
fn single_value(problem: &Problem, domains: &Domains, scratch: &mut Scratch) -> Option<Bound>
    requires domains { IsFor problem.now domains.now }
    requires scratch { IsScratchFor problem.now scratch.old }
    ensures scratch { IsScratchFor problem.now scratch.new }
    ensures single { IfSome result (λ _. AreSingle problem.now (allows domains.now) (areas problem.now)) }
    ensures value { IfSome result (λ bound. bound ≡ fixed_value problem.now (kind_in problem.now (allows domains.now))) }
    ensures several { IfNone result (¬ AreSingle problem.now (allows domains.now) (areas problem.now)) }
{
    let fixed = Leaf::Fixed;
    if fixed.sound(problem, domains).is_err() {
        return None;
    }
    match fixed.value(problem, domains, scratch) {
        Ok(bound) => Some(bound),
        Err(_) => unreachable!(),
    }
}

// What a sum is worth, where it is usable.
fn usable_value(
    sum: &RowSum,
    problem: &Problem,
    domains: &Domains,
    share: u64,
    scratch: &mut Scratch,
) -> Option<Bound>
    requires domains { IsFor problem.now domains.now }
    requires scratch { IsScratchFor problem.now scratch.old }
    ensures scratch { IsScratchFor problem.now scratch.new }
    ensures value { IsValueOf problem.now (allows domains.now) share sum.now result }
{
    if marks(sum) > share {
        return None;
    }
    if sum.sound(problem, domains).is_err() {
        return None;
    }
    match sum.value(problem, domains, scratch) {
        Ok(bound) => Some(bound),
        Err(_) => None,
    }
}

// The tip of the sum without rows.
fn plain_tip(
    alloc: Global,
    problem: &Problem,
    domains: &Domains,
    depth: u32,
    scratch: &mut Scratch,
) -> Tip
    requires rules { IsProblem problem.now }
    requires domains { IsFor problem.now domains.now }
    requires scratch { IsScratchFor problem.now scratch.old }
    ensures scratch { IsScratchFor problem.now scratch.new }
    ensures leaf { result.leaf ≡ Sum plain_sum }
    ensures worth { leaf_answer (Sum plain_sum) problem.now (allows domains.now) ≡ Ok result.bound }
    ensures depth { result.depth ≡ depth }
{
    let sum = no_rows(alloc);
    match sum.value(problem, domains, scratch) {
        Ok(bound) => Tip {
            leaf: Leaf::Sum(sum),
            bound,
            depth,
        },
        Err(_) => unreachable!(),
    }
}

// The sum without rows.
pub(crate) fn no_rows(alloc: Global) -> RowSum
    ensures { result ≡ plain_sum }
{
    RowSum {
        denominator: 1,
        void: false,
        rows: Vec::new(alloc),
    }
}
