// Regions that have no area, or whose areas links do not join inside them. One area stands for each set that links join inside a region.
ghost use Rattle.std.specs.Prelude.{ℕ, ◌≡◌, ◌<◌, ◌≤◌, ◌+◌, ◌↔◌, [], IsTrue, List, length, slice_index, take};
ghost use Rattle.std.specs.List.Sorted.{IsPermutation, IsNonDecreasingBy};
ghost use Rattle.agg_base.specs.declared.limits.TheConstants.{AREAS};
ghost use Rattle.union_find.specs.Sets.{AreSets};
ghost use Rattle.agg_model.specs.Problem.{Problem, IsNumbered, areas, region};
ghost use Rattle.agg_model.specs.Tops.{AreHeads, AreFront, AreSortedFront, AreTops, IsShapeAnswer};

use crate::{Grouping, Lack, Problem};
use std::mem;
use union_find::Forest;

// Whether each region is whole: it has areas, and links join them all inside it. Else the least region that is not, and what it lacks first.
pub(crate) fn first_broken(
    problem: &Problem,
    grouping: &Grouping,
    scratch: &mut Vec<u32>,
) -> Result<(), Lack>
    requires numbered { IsNumbered problem.now grouping.now }
    requires room { length scratch.old.items ≡ areas problem.now }
    ensures room { length scratch.new.items ≡ length scratch.old.items }
    ensures answer { IsShapeAnswer problem.now grouping.now result }
{
    let count = tops(problem, grouping, scratch);
    first_without_one_top(grouping, &scratch[..count])
}

// Puts one area of each set that links join inside a region to the front, in the order of the regions. Answers how many they are.
fn tops(problem: &Problem, grouping: &Grouping, scratch: &mut Vec<u32>) -> usize
    requires numbered { IsNumbered problem.now grouping.now }
    requires room { length scratch.old.items ≡ areas problem.now }
    ensures room { length scratch.new.items ≡ length scratch.old.items }
    ensures few { result ≤ length scratch.new.items }
    ensures sorted { IsNonDecreasingBy (region grouping.now) (take result scratch.new.items) }
    ensures tops { AreTops problem.now grouping.now (take result scratch.new.items) }
{
    find_heads(problem, grouping, scratch);
    sort_tops(grouping, scratch)
}

// For each area, the least that links reach from it inside its region.
fn find_heads(problem: &Problem, grouping: &Grouping, scratch: &mut Vec<u32>)
    requires numbered { IsNumbered problem.now grouping.now }
    requires room { length scratch.old.items ≡ areas problem.now }
    ensures { AreHeads problem.now grouping.now scratch.new.items }
{
    prove_eq!(scratch.len(), problem.areas() as usize);
    let none = Vec::new(*scratch.allocator());
    let mut forest = Forest::over(mem::replace(scratch, none));
    join_inside(&mut forest, problem, grouping);
    *scratch = forest.least_members();
}

// Joins the ends of each link inside a region, where each area stood alone.
fn join_inside(forest: &mut Forest, problem: &Problem, grouping: &Grouping)
    requires numbered { IsNumbered problem.now grouping.now }
    requires members { length forest.old ≡ areas problem.now }
    requires alone { AreSets [] forest.old }
    ensures { AreHeads problem.now grouping.now forest.new }
{
    for link in 0..problem.link_count() {
        let link = problem.link(link);
        if grouping.region(link.a) != grouping.region(link.b) {
            continue;
        }
        forest.join(link.a, link.b);
    }
}

// Moves the numbers that stand at their own places to the front, and sorts them there by their regions. Answers how many they are.
fn sort_tops(grouping: &Grouping, heads: &mut [u32]) -> usize
    ensures length { length heads.new ≡ length heads.old }
    ensures sorted { IsNonDecreasingBy (region grouping.now) (take result heads.new) }
    ensures tops { AreSortedFront heads.old result heads.new }
{
    let count = gather_tops(heads);
    sort_by_region(grouping, &mut heads[..count]);
    count
}

// Moves the numbers that stand at their own places to the front. Answers how many they are.
fn gather_tops(heads: &mut [u32]) -> usize
    ensures length { length heads.new ≡ length heads.old }
    ensures front { AreFront (λ v. slice_index heads.old v) (length heads.old) result (λ i. slice_index heads.new i) }
{
    let mut count = 0;
    for area in 0..heads.len() {
        let head = heads[area];
        if head as usize != area {
            continue;
        }
        heads[count] = head;
        count += 1;
    }
    count
}

// Sorts areas by their regions.
pub(crate) fn sort_by_region(grouping: &Grouping, areas: &mut [u32])
    ensures permutation { IsPermutation areas.old areas.new }
    ensures length { length areas.new ≡ length areas.old }
    ensures sorted { IsNonDecreasingBy (region grouping.now) areas.new }
{
    areas.sort_unstable_by_key(|area| region_of(grouping, *area));
}

// The region of an area. The rest have region 0.
fn region_of(grouping: &Grouping, area: u32) -> u32
    ensures { result ≡ region grouping.now area }
{
    match grouping.region_of.get(area as usize) {
        Some(region) => *region,
        None => 0,
    }
}

// Whether there is an area at this place, and its region has this number.
fn is_in(grouping: &Grouping, tops: &[u32], at: usize, number: u32) -> bool
    ensures { IsTrue result ↔ ((at < length tops.now) × (region grouping.now (slice_index tops.now at) ≡ number)) }
{
    at < tops.len() && region_of(grouping, tops[at]) == number
}

// Whether each region has one top. Else the least region that has none or more.
fn first_without_one_top(grouping: &Grouping, tops: &[u32]) -> Result<(), Lack>
    requires few { length grouping.now.class_of ≤ AREAS }
    requires sorted { IsNonDecreasingBy (region grouping.now) tops.now }
    ensures { (p : Problem) → AreTops p grouping.now tops.now → IsShapeAnswer p grouping.now result }
{
    for region in 0..grouping.regions() {
        if !is_in(grouping, tops, region as usize, region) {
            return Err(Lack::Empty { region });
        }
        if is_in(grouping, tops, region as usize + 1, region) {
            return Err(Lack::Loose { region });
        }
    }
    Ok(())
}
