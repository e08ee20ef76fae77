// The domains of a first tip, and the two halves that a split makes of them.
ghost use Rattle.std.specs.Prelude.{◌≡◌, ◌+◌, ◌<◌, IfOk};
ghost use Rattle.agg_model.specs.Problem.{IsProblem, areas};
ghost use Rattle.row_laws.specs.Fixed.{AreSingle};
ghost use Rattle.row_laws.specs.Trees.{only, without};
ghost use Rattle.bound_rows.specs.Domains.{allows, IsFor};
ghost use Rattle.branch_bound.specs.Growth.{shape_of};
ghost use Rattle.branch_bound.specs.Shapes.{first_tip, first_allowed, AreSplits};
ghost use Rattle.branch_bound.specs.Trees.{IsFork};

use crate::growth::Growth;
use crate::pairs::chosen_pair;
use agg_base::NoMemory;
use agg_base::limits::DEPTH;
use agg_model::Problem;
use bound_rows::{BoundProvider, Domains, Leaf};
use std::alloc::Global;

// Where a tip stands, and its leaf.
#[derive(Drop)]
pub(crate) struct Place {
    pub(crate) domains: Domains,
    pub(crate) depth: u32,
    pub(crate) leaf: Leaf,
}

// The domains of a tip, split on an area and a class, with the depth of the two halves and the leaf that the tip had.
#[derive(Drop)]
pub(crate) struct Halves {
    pub(crate) leaf: Leaf,
    pub(crate) area: u32,
    pub(crate) class: u8,
    pub(crate) depth: u32,
    pub(crate) with: Domains,
    pub(crate) rest: Domains,
}

// Where the first tip stands, in a tree over these domains.
pub(crate) fn first_place(
    alloc: Global,
    problem: &Problem,
    whole: &Domains,
    growth: &Growth,
) -> Result<Place, NoMemory>
    requires domains { IsFor problem.now whole.now }
    requires splits { AreSplits (areas problem.now) (shape_of growth.now) (allows whole.now) }
    ensures domains { IfOk result (λ place. IsFor problem.now place.domains) }
    ensures allowed { IfOk result (λ place. allows place.domains ≡ first_allowed (shape_of growth.now) (allows whole.now)) }
    ensures depth { IfOk result (λ place. place.depth ≡ (first_tip (shape_of growth.now)).depth) }
    ensures leaf { IfOk result (λ place. place.leaf ≡ (first_tip (shape_of growth.now)).leaf) }
{
    let mut domains = whole.copy(alloc)?;
    let depth = growth.enter(&mut domains);
    let leaf = growth.first_leaf().copy(alloc)?;
    Ok(Place {
        domains,
        depth,
        leaf,
    })
}

// The two halves of a tip's domains.
pub(crate) fn halves_of<P: BoundProvider>(
    alloc: Global,
    problem: &Problem,
    provider: &P,
    place: Place,
) -> Result<Halves, NoMemory>
    requires rules { IsProblem problem.now }
    requires domains { IsFor problem.now place.domains }
    requires several { ¬ AreSingle problem.now (allows place.domains) (areas problem.now) }
    requires shallow { place.depth < DEPTH }
    ensures split { IfOk result (λ halves. IsFork problem.now (allows place.domains) halves.area halves.class) }
    ensures leaf { IfOk result (λ halves. halves.leaf ≡ place.leaf) }
    ensures depth { IfOk result (λ halves. halves.depth ≡ place.depth + 1) }
    ensures with_for { IfOk result (λ halves. IsFor problem.now halves.with) }
    ensures with_allows { IfOk result (λ halves. allows halves.with ≡ only (allows place.domains) halves.area halves.class) }
    ensures rest_for { IfOk result (λ halves. IsFor problem.now halves.rest) }
    ensures rest_allows { IfOk result (λ halves. allows halves.rest ≡ without (allows place.domains) halves.area halves.class) }
{
    let pair = chosen_pair(alloc, problem, provider, &place.domains, &place.leaf)?;
    split_place(alloc, problem, place, pair.area, pair.class)
}

// The two halves of a tip's domains by an area and a class.
fn split_place(
    alloc: Global,
    problem: &Problem,
    place: Place,
    area: u32,
    class: u8,
) -> Result<Halves, NoMemory>
    requires rules { IsProblem problem.now }
    requires domains { IsFor problem.now place.domains }
    requires split { IsFork problem.now (allows place.domains) area class }
    requires shallow { place.depth < DEPTH }
    ensures area { IfOk result (λ halves. halves.area ≡ area) }
    ensures class { IfOk result (λ halves. halves.class ≡ class) }
    ensures leaf { IfOk result (λ halves. halves.leaf ≡ place.leaf) }
    ensures depth { IfOk result (λ halves. halves.depth ≡ place.depth + 1) }
    ensures with_for { IfOk result (λ halves. IsFor problem.now halves.with) }
    ensures with_allows { IfOk result (λ halves. allows halves.with ≡ only (allows place.domains) area class) }
    ensures rest_for { IfOk result (λ halves. IsFor problem.now halves.rest) }
    ensures rest_allows { IfOk result (λ halves. allows halves.rest ≡ without (allows place.domains) area class) }
{
    let Place {
        domains,
        depth,
        leaf,
    } = place;
    let mut with = domains.copy(alloc)?;
    with.only(area, class);
    let mut rest = domains;
    rest.without(area, class);
    Ok(Halves {
        leaf,
        area,
        class,
        depth: depth + 1,
        with,
        rest,
    })
}
