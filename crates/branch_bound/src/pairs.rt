// Which area is split, and by which class.
ghost use Rattle.std.specs.Prelude.{◌≡◌, ◌<◌, ◌⊎◌, true, Some, IsTrue, IfOk, IfSome};
ghost use Rattle.agg_model.specs.Problem.{IsProblem, areas};
ghost use Rattle.row_laws.specs.Fixed.{AreSingle, IsSingle};
ghost use Rattle.bound_rows.specs.Domains.{allows, IsFor};
ghost use Rattle.branch_bound.specs.Trees.{IsFork};

use crate::closest::closest_choice;
use agg_base::NoMemory;
use agg_model::Problem;
use bound_rows::{BoundProvider, Domains, Leaf};
use std::alloc::Global;

// An area that may have the class, and another one.
#[derive(Clone, Copy)]
pub(crate) struct Pair {
    pub(crate) area: u32,
    pub(crate) class: u8,
}

// What to split on: what the provider hints at, where that is a split. Else the area at which the leaf leaves most to tell, or the heaviest area
// that has more than one class.
pub(crate) fn chosen_pair<P: BoundProvider>(
    alloc: Global,
    problem: &Problem,
    provider: &P,
    domains: &Domains,
    leaf: &Leaf,
) -> Result<Pair, NoMemory>
    requires domains { IsFor problem.now domains.now }
    requires rules { IsProblem problem.now }
    requires several { ¬ AreSingle problem.now (allows domains.now) (areas problem.now) }
    ensures { IfOk result (λ pair. IsFork problem.now (allows domains.now) pair.area pair.class) }
{
    if let Some((area, class)) = provider.hint(problem, domains) {
        if is_split(problem, domains, area, class) {
            return Ok(Pair { area, class });
        }
    }
    if let Leaf::Sum(sum) = leaf {
        let (area, class) = closest_choice(alloc, problem, domains, sum)?;
        if is_split(problem, domains, area, class) {
            return Ok(Pair { area, class });
        }
    }
    Ok(heaviest_pair(problem, domains))
}

// Whether the area may have the class, and another one.
fn is_split(problem: &Problem, domains: &Domains, area: u32, class: u8) -> bool
    requires { IsFor problem.now domains.now }
    ensures { IsTrue result → IsFork problem.now (allows domains.now) area class }
{
    if area >= problem.areas() {
        return false;
    }
    if class >= problem.classes() {
        return false;
    }
    if domains.single(area) {
        return false;
    }
    domains.allows(area, class)
}

// The heaviest area that has more than one class, and a class to split it by.
fn heaviest_pair(problem: &Problem, domains: &Domains) -> Pair
    requires domains { IsFor problem.now domains.now }
    requires rules { IsProblem problem.now }
    requires several { ¬ AreSingle problem.now (allows domains.now) (areas problem.now) }
    ensures { IsFork problem.now (allows domains.now) result.area result.class }
{
    let area = heaviest(problem, domains);
    let class = likely_class(problem, domains, area);
    Pair { area, class }
}

// The heaviest area that has more than one class, the first at a tie.
fn heaviest(problem: &Problem, domains: &Domains) -> u32
    requires domains { IsFor problem.now domains.now }
    requires several { ¬ AreSingle problem.now (allows domains.now) (areas problem.now) }
    ensures area { result < areas problem.now }
    ensures several { ¬ IsSingle (allows domains.now result) problem.now.classes }
{
    let mut found = None;
    for area in 0..problem.areas() {
        if domains.single(area) {
            continue;
        }
        found = Some(heavier(problem, found, area));
    }
    match found {
        Some(area) => area,
        None => unreachable!(),
    }
}

// The heavier of two areas, the first at a tie.
fn heavier(problem: &Problem, found: Option<u32>, area: u32) -> u32
    requires area { area < areas problem.now }
    requires found { IfSome found (λ first. first < areas problem.now) }
    ensures { (result ≡ area) ⊎ (found ≡ Some result) }
{
    match found {
        None => area,
        Some(first) => {
            if problem.weight(area) <= problem.weight(first) {
                first
            } else {
                area
            }
        }
    }
}

// The own class of an area where it may have that, else the first that it may have.
fn likely_class(problem: &Problem, domains: &Domains, area: u32) -> u8
    requires domains { IsFor problem.now domains.now }
    requires rules { IsProblem problem.now }
    requires area { area < areas problem.now }
    ensures { allows domains.now area result ≡ true }
{
    let own = problem.own(area);
    if domains.allows(area, own) {
        own
    } else {
        first_class(problem, domains, area)
    }
}

// The first class that the area may have.
pub(crate) fn first_class(problem: &Problem, domains: &Domains, area: u32) -> u8
    requires domains { IsFor problem.now domains.now }
    requires area { area < areas problem.now }
    ensures allowed { allows domains.now area result ≡ true }
    ensures below { result < problem.now.classes }
{
    for class in 0..problem.classes() {
        if domains.allows(area, class) {
            return class;
        }
    }
    unreachable!()
}
