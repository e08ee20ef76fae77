ghost use Rattle.std.specs.Prelude.{◌≡◌, ◌<◌, ◌≤◌, ◌*◌, ◌^◌, ◌*ℤ◌, pos, ◌≤ℤ◌, ◌<ℤ◌, length};
ghost use Rattle.whole_ring.specs.Sums.{sum_below, when};
ghost use Rattle.agg_model.specs.Problem.{IsNumbered, areas, class_at, weight_of, length_of, recolouring, recolouring_below, border_below, is_between_regions, cost, CostLaw};

use crate::{Grouping, Problem};

/// What a grouping costs: the sum over areas of weight times the distance from the own class to the region's class, plus the border weight
/// times the sum of the lengths of the links between different regions. It takes no memory.
pub fn cost(problem: &Problem, grouping: &Grouping) -> i128
    requires { IsNumbered problem.now grouping.now }
    ensures { result ≡ cost problem.now grouping.now }
{
    recolouring(problem, grouping) + borders(problem, grouping) * i128::from(problem.border())
}

/// No numbered grouping costs less than 0, nor 2^110 or more.
pub fn cost_law()
    ensures { CostLaw }
{}

/// What it costs to give an area a class: its weight times the distance from its own class. It takes no memory.
pub fn recolour(problem: &Problem, area: u32, class: u8) -> i128
    requires area { area < areas problem.now }
    requires class { class < problem.now.classes }
    ensures value { result ≡ recolouring problem.now area class }
    ensures least { pos 0 ≤ℤ result }
    ensures most { result ≤ℤ (pos 10000 *ℤ weight_of problem.now area) }
{
    problem.weight(area) * i128::from(problem.distance(problem.own(area), class))
}

// What it costs to give each area the class of its region.
fn recolouring(problem: &Problem, grouping: &Grouping) -> i128
    requires { IsNumbered problem.now grouping.now }
    ensures value { result ≡ recolouring_below problem.now grouping.now (areas problem.now) }
    ensures least { pos 0 ≤ℤ result }
    ensures most { result <ℤ pos (2 ^ 110) }
{
    let mut sum = 0;
    for area in 0..problem.areas() {
        sum += recolour(problem, area, grouping.class_at(area));
    }
    sum
}

// How long the links are that join two regions.
fn borders(problem: &Problem, grouping: &Grouping) -> i128
    requires { IsNumbered problem.now grouping.now }
    ensures value { result ≡ border_below problem.now grouping.now (length problem.now.links) }
    ensures least { pos 0 ≤ℤ result }
    ensures most { (pos 10000 *ℤ result) <ℤ pos (2 ^ 110) }
{
    let mut sum = 0;
    for link in 0..problem.link_count() {
        sum += across(problem, grouping, link);
    }
    sum
}

// The length of a link where it joins two regions, else 0.
fn across(problem: &Problem, grouping: &Grouping, link: u32) -> i128
    requires numbered { IsNumbered problem.now grouping.now }
    requires link { link < length problem.now.links }
    ensures value { result ≡ when (is_between_regions problem.now grouping.now link) (length_of problem.now link) }
    ensures least { pos 0 ≤ℤ result }
    ensures most { result ≤ℤ length_of problem.now link }
{
    let link = problem.link(link);
    if grouping.region(link.a) != grouping.region(link.b) {
        link.length
    } else {
        0
    }
}
