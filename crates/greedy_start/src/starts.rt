// One region for each part, and what a search finds from there.
ghost use Rattle.std.specs.Prelude.{◌≡◌, ◌<◌, ◌≤◌, ℕ, length, slice_index, IfOk, EachIndex};
ghost use Rattle.agg_model.specs.Problem.{Grouping, IsFeasible};
ghost use Rattle.greedy_start.specs.Starts.{IsNumberedByLeast, IsOneRegionEach, IsFirstHopeless, IsNoDearerThanParts};
ghost use Rattle.greedy_start.specs.Tallies.{IsStart, IsFirstNone};

use crate::choices::{Best, best_classes};
use crate::orders::is_in_order;
use agg_base::NoMemory;
use agg_model::{Grouping, Problem, parts};
use std::alloc::{AllocFailed, Global};
use thiserror::Error;
use window_search::search;

// How many turns the search takes: so many for each area, or so many for each and so many more, whichever is less.
const FEW_AREAS_TURNS: u64 = 32;

const AREA_TURNS: u64 = 8;

const MORE_TURNS: u64 = 24_000;

/// Why there is no first grouping.
#[derive(Clone, Copy, Debug, PartialEq, Eq, Error)]
pub enum StartFault {
    /// No grouping is feasible: no area of this area's part owns a class whose threshold is at most the weight of the part. It is the
    /// least area of the first such part.
    #[error("no class can cover the part of area {area}")]
    Hopeless { area: u32 },
    /// Out of memory.
    #[error("out of memory")]
    Memory,
}

impl From<NoMemory> for StartFault {
    ghost use Rattle.greedy_start.specs.declared.starts.StartFault.{StartFault};

    ghost from_gives = { λ _ e. e ≡ StartFault.Memory };

    fn from(_: NoMemory) -> Self {
        StartFault::Memory
    }
}

impl<T: Drop> From<AllocFailed<T>> for StartFault {
    ghost use Rattle.greedy_start.specs.declared.starts.StartFault.{StartFault};

    ghost from_gives = { λ _ e. e ≡ StartFault.Memory };

    fn from(_: AllocFailed<T>) -> Self {
        StartFault::Memory
    }
}

/// A feasible grouping, with regions numbered by their least areas. It costs no more than one region for each part, whose class is the one of
/// least recolouring among those that an area of the part owns and whose threshold is at most the weight of the part, the least number at a
/// tie. The same problem gets the same grouping on every machine.
///
/// `Hopeless` comes exactly where no grouping is feasible, and names the least area of the first part that has no such class.
pub fn start(alloc: Global, problem: &Problem) -> Result<Grouping, StartFault>
    ensures found { IfOk result (λ g. IsFeasible problem.now g × IsNumberedByLeast problem.now g) }
    ensures cheap { IfOk result (λ g. IsNoDearerThanParts problem.now g) }
    ensures hopeless { (v : ℕ) → result ≡ Err (StartFault.Hopeless v) → IsFirstHopeless problem.now v }
    ensures none { (v : ℕ) → result ≡ Err (StartFault.Hopeless v) → (g : Grouping) → ¬ IsFeasible problem.now g }
{
    let whole = whole_parts(alloc, problem)?;
    Ok(improve(alloc, problem, whole)?)
}

// What the search finds from one region for each part, where its regions come in the order of their least areas; else that grouping.
fn improve(alloc: Global, problem: &Problem, whole: Grouping) -> Result<Grouping, NoMemory>
    requires feasible { IsFeasible problem.now whole }
    requires numbered { IsNumberedByLeast problem.now whole }
    requires chosen { IsOneRegionEach problem.now whole }
    ensures found { IfOk result (λ g. IsFeasible problem.now g × IsNumberedByLeast problem.now g) }
    ensures cheap { IfOk result (λ g. IsNoDearerThanParts problem.now g) }
{
    let found = search(alloc, problem, &whole, turns_for(problem.areas()))?;
    if is_in_order(&found.region_of) {
        Ok(found)
    } else {
        Ok(whole)
    }
}

// How many turns the search takes.
fn turns_for(areas: u32) -> u64 {
    let areas = u64::from(areas);
    (areas * FEW_AREAS_TURNS).min(areas * AREA_TURNS + MORE_TURNS)
}

// One region for each part, of the open class of least recolouring, numbered by their least areas.
fn whole_parts(alloc: Global, problem: &Problem) -> Result<Grouping, StartFault>
    ensures found { IfOk result (λ g. IsFeasible problem.now g × IsNumberedByLeast problem.now g) }
    ensures chosen { IfOk result (λ g. IsOneRegionEach problem.now g) }
    ensures hopeless { (v : ℕ) → result ≡ Err (StartFault.Hopeless v) → IsFirstHopeless problem.now v }
    ensures none { (v : ℕ) → result ≡ Err (StartFault.Hopeless v) → (g : Grouping) → ¬ IsFeasible problem.now g }
{
    let parts = parts(alloc, problem)?;
    let best = best_classes(alloc, problem, &parts)?;
    one_region_each(alloc, problem.areas(), &parts, &best)
}

// One region for each part, with its best class.
fn one_region_each(
    alloc: Global,
    areas: u32,
    parts: &[u32],
    best: &[Option<Best>],
) -> Result<Grouping, StartFault>
    requires areas { length parts.now ≡ areas }
    requires length { length best.now ≡ length parts.now }
    requires down { EachIndex parts.now (λ v. slice_index parts.now v ≤ v) }
    ensures found { IfOk result (λ g. IsStart parts.now best.now (length parts.now) g) }
    ensures hopeless { (v : ℕ) → result ≡ Err (StartFault.Hopeless v) → IsFirstNone parts.now best.now v }
{
    let mut region_of = Vec::new(alloc);
    let mut class_of = Vec::new(alloc);
    for area in 0..areas {
        let part = parts[area as usize];
        if part != area {
            region_of.push(region_of[part as usize])?;
            continue;
        }
        let Some(Best { class, .. }) = best[area as usize] else {
            return Err(StartFault::Hopeless { area });
        };
        region_of.push(class_of.len() as u32)?;
        class_of.push(class)?;
    }
    Ok(Grouping {
        region_of,
        class_of,
    })
}
