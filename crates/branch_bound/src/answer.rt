// The search from its start to its answer.
ghost use Rattle.std.specs.Prelude.{◌≡◌, ◌+◌, ◌/◌, ◌≤◌, IfOk};
ghost use Rattle.agg_model.specs.Problem.{IsFeasible};
ghost use Rattle.greedy_start.specs.Starts.{IsNumberedByLeast, IsNoDearerThanParts};
ghost use Rattle.branch_bound.specs.Enough.{HasEnough, IsClosed};
ghost use Rattle.branch_bound.specs.Outcomes.{IsSolved, IsAsked};

use crate::hopeless::void_tree;
use crate::search::{Best, Search, kind_of};
use crate::tries::Tries;
use crate::{Kind, Outcome};
use agg_base::NoMemory;
use agg_base::limits::{MARKS, SPLITS};
use agg_model::{Grouping, Problem, cost};
use bound_rows::BoundProvider;
use greedy_start::{StartFault, start};
use std::alloc::Global;

/// Searches for the best grouping, with at most so many splits of the domains that allow every area every class. A tree of splits proves a
/// bound that holds of every feasible grouping: the least value of its leaves. The best grouping that was found costs no more than one region
/// for each part.
///
/// - `Optimal` where the bound is the cost of the best grouping that was found.
/// - `Within` where it is below. Then the tree has exactly so many splits, or, with `deep`, each leaf of this bound stands at the greatest depth.
/// - `NoGrouping` exactly where no grouping is feasible. The tree is one void leaf over the first hopeless part.
///
/// The provider is asked once at each node, with a share of the marks of a certificate. A leaf is `Fixed` where each area has one class, else it
/// is what was offered, or the sum without rows where that is not usable, or the leaf that its parent had where that is worth more. A leaf of
/// least bound is split next, by what the provider hints at where that is a split, else where the leaf leaves most to tell. The one refusal is
/// want of memory.
pub fn solve<P: BoundProvider>(
    alloc: Global,
    problem: &Problem,
    provider: &mut P,
    splits: u32,
) -> Result<Outcome, NoMemory>
    requires { splits ≤ SPLITS }
    ensures solved { IfOk result (λ outcome. IsSolved problem.now (MARKS / (splits + 1)) (λ allowed sum. P.fits provider.old problem.now allowed (MARKS / (splits + 1)) sum) splits outcome) }
    ensures asked { IfOk result (λ outcome. IsAsked (P.asks provider.old) (P.asks provider.new) outcome) }
    ensures enough { HasEnough problem.now splits → IfOk result (λ outcome. IsClosed outcome.kind) }
{
    match start(alloc, problem) {
        Ok(grouping) => search(alloc, problem, provider, grouping, splits),
        Err(StartFault::Hopeless { area }) => {
            let tree = void_tree(alloc, problem, area)?;
            Ok(Outcome {
                tree,
                kind: Kind::NoGrouping,
            })
        }
        Err(StartFault::Memory) => Err(NoMemory),
    }
}

// The search that begins with this grouping.
fn search<P: BoundProvider>(
    alloc: Global,
    problem: &Problem,
    provider: &mut P,
    grouping: Grouping,
    splits: u32,
) -> Result<Outcome, NoMemory>
    requires feasible { IsFeasible problem.now grouping }
    requires numbered { IsNumberedByLeast problem.now grouping }
    requires cheap { IsNoDearerThanParts problem.now grouping }
    ensures solved { IfOk result (λ outcome. IsSolved problem.now (MARKS / (splits + 1)) (λ allowed sum. P.fits provider.old problem.now allowed (MARKS / (splits + 1)) sum) splits outcome) }
    ensures asked { IfOk result (λ outcome. IsAsked (P.asks provider.old) (P.asks provider.new) outcome) }
    ensures enough { HasEnough problem.now splits → IfOk result (λ outcome. IsClosed outcome.kind) }
{
    let share = share_of(splits);
    let cost = cost(problem, &grouping);
    let best = Best {
        grouping,
        cost,
        tries: Tries::new(alloc),
    };
    let mut state = Search::of(alloc, problem, provider, best, share)?;
    state.run(alloc, problem, provider, splits, share)?;
    let Search { growth, best, .. } = state;
    let first = growth.rank();
    let tree = growth.into_tree(alloc)?;
    let kind = kind_of(best, first);
    Ok(Outcome { tree, kind })
}

// How many marks each leaf may have, so that all leaves together have no more than a certificate.
fn share_of(splits: u32) -> u64
    ensures { result ≡ MARKS / (splits + 1) }
{
    MARKS / (u64::from(splits) + 1)
}
