// What areas with single classes cost: recolouring, and the links between areas of different classes.
ghost use Rattle.std.specs.Prelude.{◌≡◌, ◌<◌, ◌^◌, ◌*ℤ◌, ◌≤ℤ◌, ◌<ℤ◌, pos, not, EachIndex, length, slice_index};
ghost use Rattle.whole_ring.specs.Sums.{sum_below, when};
ghost use Rattle.agg_model.specs.Problem.{areas, length_of, recolouring};
ghost use Rattle.row_laws.specs.Fixed.{is_same_kind, fixed_cost};

use crate::components::is_same_kind;
use agg_model::{Problem, recolour};

// What areas with these classes cost.
pub(crate) fn cost_of(problem: &Problem, kinds: &[u8]) -> i128
    requires length { length kinds.now ≡ areas problem.now }
    requires below { EachIndex kinds.now (λ v. slice_index kinds.now v < problem.now.classes) }
    ensures { result ≡ fixed_cost problem.now (λ v. slice_index kinds.now v) }
{
    recolouring(problem, kinds) + borders(problem, kinds) * i128::from(problem.border())
}

// What it costs to give each area its class.
fn recolouring(problem: &Problem, kinds: &[u8]) -> i128
    requires length { length kinds.now ≡ areas problem.now }
    requires below { EachIndex kinds.now (λ v. slice_index kinds.now v < problem.now.classes) }
    ensures value { result ≡ sum_below (areas problem.now) (λ v. recolouring problem.now v (slice_index kinds.now v)) }
    ensures least { pos 0 ≤ℤ result }
    ensures most { result <ℤ pos (2 ^ 110) }
{
    let mut sum = 0;
    for area in 0..problem.areas() {
        sum += recolour(problem, area, kinds[area as usize]);
    }
    sum
}

// How long the links are between areas of different classes.
fn borders(problem: &Problem, kinds: &[u8]) -> i128
    requires { length kinds.now ≡ areas problem.now }
    ensures value { result ≡ sum_below (length problem.now.links) (λ l. when (not (is_same_kind problem.now (λ v. slice_index kinds.now v) l)) (length_of problem.now l)) }
    ensures least { pos 0 ≤ℤ result }
    ensures most { (pos 10000 *ℤ result) <ℤ pos (2 ^ 110) }
{
    let mut sum = 0;
    for link in 0..problem.link_count() {
        sum += across(problem, kinds, link);
    }
    sum
}

// The length of a link where it joins areas of different classes, else 0.
fn across(problem: &Problem, kinds: &[u8], link: u32) -> i128
    requires kinds { length kinds.now ≡ areas problem.now }
    requires link { link < length problem.now.links }
    ensures value { result ≡ when (not (is_same_kind problem.now (λ v. slice_index kinds.now v) link)) (length_of problem.now link) }
    ensures least { pos 0 ≤ℤ result }
    ensures most { result ≤ℤ length_of problem.now link }
{
    let length = problem.link(link).length;
    if is_same_kind(problem, kinds, link) {
        0
    } else {
        length
    }
}
