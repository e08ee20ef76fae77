// The grouping of areas with one class each: a region for each component, which links between areas of one class join.
ghost use Rattle.std.specs.Prelude.{◌≡◌, ◌<◌, ◌≤◌, ℕ, ℤ, [], IfOk, EachIndex, length, slice_index};
ghost use Rattle.agg_base.specs.declared.limits.TheConstants.{AREAS};
ghost use Rattle.union_find.specs.Sets.{AreSets};
ghost use Rattle.agg_model.specs.Problem.{IsProblem, areas};
ghost use Rattle.agg_model.specs.Tops.{AreHeads};
ghost use Rattle.row_laws.specs.Fixed.{AreSingle, is_same_kind, fixed_value, kind_in};
ghost use Rattle.row_laws.specs.declared.bound.Bound.TheVariants.{Least};
ghost use Rattle.fixed_value.specs.Components.{AreComponents};
ghost use Rattle.bound_rows.specs.Domains.{allows, IsFor};
ghost use Rattle.branch_bound.specs.Components.{by_kind, AreRegions, IsPriced};

use crate::pairs::first_class;
use agg_base::NoMemory;
use agg_model::{Grouping, Problem};
use bound_rows::Domains;
use std::alloc::Global;
use union_find::Forest;

// The components of areas that may have one class each, as regions in the order of their least areas.
pub(crate) fn component_grouping(
    alloc: Global,
    problem: &Problem,
    domains: &Domains,
) -> Result<Grouping, NoMemory>
    requires domains { IsFor problem.now domains.now }
    requires rules { IsProblem problem.now }
    requires single { AreSingle problem.now (allows domains.now) (areas problem.now) }
    ensures { IfOk result (λ g. (c : ℤ) → fixed_value problem.now (kind_in problem.now (allows domains.now)) ≡ Least c → IsPriced problem.now g c) }
{
    let kinds = kinds_of(alloc, problem, domains)?;
    let heads = component_heads(alloc, problem, &kinds)?;
    regions(alloc, &heads, &kinds)
}

// The first class that each area may have.
fn kinds_of(alloc: Global, problem: &Problem, domains: &Domains) -> Result<Vec<u8>, NoMemory>
    requires domains { IsFor problem.now domains.now }
    requires single { AreSingle problem.now (allows domains.now) (areas problem.now) }
    ensures length { IfOk result (λ kinds. length kinds.items ≡ areas problem.now) }
    ensures below { IfOk result (λ kinds. EachIndex kinds.items (λ v. slice_index kinds.items v < problem.now.classes)) }
    ensures kinds { IfOk result (λ kinds. (v : ℕ) → v < areas problem.now → slice_index kinds.items v ≡ kind_in problem.now (allows domains.now) v) }
{
    let mut kinds = Vec::with_capacity(alloc, problem.areas() as usize)?;
    for area in 0..problem.areas() {
        kinds.push(first_class(problem, domains, area))?;
    }
    Ok(kinds)
}

// The least area of the component of each area.
fn component_heads(alloc: Global, problem: &Problem, kinds: &[u8]) -> Result<Vec<u32>, NoMemory>
    requires { length kinds.now ≡ areas problem.now }
    ensures components { IfOk result (λ heads. AreComponents problem.now (λ v. slice_index kinds.now v) heads.items) }
    ensures walks { IfOk result (λ heads. AreHeads problem.now (by_kind kinds.now) heads.items) }
{
    let mut forest = Forest::of(alloc, problem.areas())?;
    join_kinds(&mut forest, problem, kinds);
    Ok(forest.least_members())
}

// Joins the ends of each link between areas of one class, where each area stood alone.
fn join_kinds(forest: &mut Forest, problem: &Problem, kinds: &[u8])
    requires kinds { length kinds.now ≡ areas problem.now }
    requires members { length forest.old ≡ areas problem.now }
    requires alone { AreSets [] forest.old }
    ensures components { AreComponents problem.now (λ v. slice_index kinds.now v) forest.new }
    ensures walks { AreHeads problem.now (by_kind kinds.now) forest.new }
{
    for link in 0..problem.link_count() {
        if !is_same_kind(problem, kinds, link) {
            continue;
        }
        let link = problem.link(link);
        forest.join(link.a, link.b);
    }
}

// Whether a link joins areas of one class.
fn is_same_kind(problem: &Problem, kinds: &[u8], link: u32) -> bool
    requires kinds { length kinds.now ≡ areas problem.now }
    requires link { link < length problem.now.links }
    ensures { result ≡ is_same_kind problem.now (λ v. slice_index kinds.now v) link }
{
    let link = problem.link(link);
    kinds[link.a as usize] == kinds[link.b as usize]
}

// A region for each area that is its own head, of its class, in rising order.
fn regions(alloc: Global, heads: &[u32], kinds: &[u8]) -> Result<Grouping, NoMemory>
    requires length { length kinds.now ≡ length heads.now }
    requires few { length heads.now ≤ AREAS }
    requires down { EachIndex heads.now (λ v. slice_index heads.now v ≤ v) }
    ensures { IfOk result (λ g. AreRegions heads.now kinds.now (length heads.now) g) }
{
    let mut region_of = Vec::new(alloc);
    let mut class_of = Vec::new(alloc);
    for area in 0..heads.len() {
        let head = heads[area] as usize;
        if head != area {
            region_of.push(region_of[head])?;
            continue;
        }
        region_of.push(class_of.len() as u32)?;
        class_of.push(kinds[area])?;
    }
    Ok(Grouping {
        region_of,
        class_of,
    })
}
