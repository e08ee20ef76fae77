// The certificate of a search's answer.
ghost use Rattle.std.specs.Prelude.{◌≡◌, ◌≤◌, [], IfOk};
ghost use Rattle.cert_text.specs.CertTexts.{HasSpelling};
ghost use Rattle.search_answer.specs.Answers.{States};

use crate::statable::Statable;
use agg_base::NoMemory;
use agg_base::limits::SPLITS;
use agg_model::{Grouping, Problem};
use bound_rows::Better;
use branch_bound::{Kind, Outcome, solve};
use cert_text::{CertStatus, Certificate};
use primal_dual::PrimalDual;
use relax_bound::Ascent;
use std::alloc::Global;

/// The answer to a problem, by a search with at most so many splits: the best grouping that was found, with its cost and the bound that the
/// tree proves; or that no grouping is feasible, which a void leaf over the first hopeless part proves. Its one refusal is want of memory.
///
/// Each leaf of the tree but `Fixed` is worth at least some ascent over its domains with its share of marks.
///
/// A search without splits goes first, since its one leaf may have all marks of a certificate. Where its bound is the cost, it is the answer.
pub fn search_answer(alloc: Global, problem: &Problem, splits: u32) -> Result<Certificate, NoMemory>
    requires { splits ≤ SPLITS }
    ensures states { IfOk result (λ certificate. States problem.now splits certificate) }
    ensures spelling { IfOk result (λ certificate. HasSpelling certificate) }
{
    let first = answer_within(alloc, problem, 0)?;
    if splits == 0 || first.status != CertStatus::Within {
        return Ok(first);
    }
    answer_within(alloc, problem, splits)
}

// The answer of a search with at most so many splits.
fn answer_within(alloc: Global, problem: &Problem, splits: u32) -> Result<Certificate, NoMemory>
    requires { splits ≤ SPLITS }
    ensures states { IfOk result (λ certificate. States problem.now splits certificate) }
    ensures spelling { IfOk result (λ certificate. HasSpelling certificate) }
{
    let areas = problem.areas();
    let ascent = Ascent::new(alloc, problem)?;
    let mut provider = Statable::new(Better::new(ascent, PrimalDual::new()));
    let outcome = solve(alloc, problem, &mut provider, splits)?;
    let Outcome { tree, kind } = outcome;
    match kind {
        Kind::Optimal { best, cost } => Ok(Certificate {
            status: CertStatus::Optimal,
            cost: Some(cost),
            bound: Some(cost),
            areas,
            grouping: best,
            tree,
        }),
        Kind::Within {
            best,
            cost,
            bound,
            ..
        } => Ok(Certificate {
            status: CertStatus::Within,
            cost: Some(cost),
            bound: Some(bound),
            areas,
            grouping: best,
            tree,
        }),
        Kind::NoGrouping => Ok(Certificate {
            status: CertStatus::Hopeless,
            cost: None,
            bound: None,
            areas,
            grouping: no_grouping(alloc),
            tree,
        }),
    }
}

// A grouping without areas and regions. It takes no memory.
fn no_grouping(alloc: Global) -> Grouping
    ensures { result ≡ record { region_of = []; class_of = [] } }
{
    Grouping {
        region_of: Vec::new(alloc),
        class_of: Vec::new(alloc),
    }
}
