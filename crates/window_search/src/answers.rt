// The search as a whole, and the test of what it answers.
ghost use Rattle.std.specs.Prelude.{◌≡◌, ◌≤ℤ◌, IsTrue, IfOk, length};
ghost use Rattle.agg_model.specs.Problem.{IsNumbered, IsFeasible, areas, cost};

use crate::lists::{at, put};
use crate::net::Net;
use crate::searcher::Searcher;
use agg_base::NoMemory;
use agg_model::{Grouping, Problem, cost, feasible, numbered, parts};
use std::alloc::Global;

// How much work the turns may take: so many looks at an area beside another for each turn and so many more, up to the most.
const TURN_LOOKS: u64 = 5_000;

const MORE_LOOKS: u64 = 10_000_000;

const MOST_LOOKS: u64 = 200_000_000;

// What stands for an area that has no region yet.
const NO_REGION: u32 = u32::MAX;

/// A grouping that is numbered for the problem and costs no more than the given one, found by so many turns. Where the given one is
/// feasible, the answer is too. The same input gives the same answer on every machine. Its one refusal is want of memory.
///
/// The search begins anew from the own classes, takes over the given grouping in each part where that is better, and then goes on from
/// there. More turns never cost more: they begin with the same ones. For n areas, n + 4,000 turns are a good start. The time grows with
/// the areas, the links and the turns, up to some seconds: where turns are much work, a call takes fewer of them.
pub fn search(
    alloc: Global,
    problem: &Problem,
    grouping: &Grouping,
    turns: u64,
) -> Result<Grouping, NoMemory>
    requires { IsNumbered problem.now grouping.now }
    ensures numbered { IfOk result (λ found. IsNumbered problem.now found) }
    ensures feasible { IsFeasible problem.now grouping.now → IfOk result (λ found. IsFeasible problem.now found) }
    ensures cheap { IfOk result (λ found. cost problem.now found ≤ℤ cost problem.now grouping.now) }
{
    let found = find(alloc, problem, grouping, turns)?;
    no_worse(alloc, problem, grouping, found)
}

/// A grouping that is numbered for the problem and costs no more than the given one, found by so many turns from wanted classes, one for each
/// area. Where the given one is feasible, the answer is too. The same input gives the same answer on every machine. Its one refusal is want of
/// memory.
///
/// An area that has no wanted class of the problem begins with its class in the given grouping. The search makes regions of the wanted classes
/// that are heavy enough, takes its turns where the given grouping has other classes, and goes back to the given grouping in each part where
/// that is better. The time grows with the areas, the links and the turns; with few turns, less is done to the wanted classes too.
pub fn search_near(
    alloc: Global,
    problem: &Problem,
    grouping: &Grouping,
    wanted: &[u8],
    turns: u64,
) -> Result<Grouping, NoMemory>
    requires { IsNumbered problem.now grouping.now }
    ensures numbered { IfOk result (λ found. IsNumbered problem.now found) }
    ensures feasible { IsFeasible problem.now grouping.now → IfOk result (λ found. IsFeasible problem.now found) }
    ensures cheap { IfOk result (λ found. cost problem.now found ≤ℤ cost problem.now grouping.now) }
{
    let found = find_near(alloc, problem, grouping, wanted, turns)?;
    no_worse(alloc, problem, grouping, found)
}

// What was found, where it is feasible and costs no more than the given grouping; else that.
fn no_worse(
    alloc: Global,
    problem: &Problem,
    grouping: &Grouping,
    found: Grouping,
) -> Result<Grouping, NoMemory>
    requires { IsNumbered problem.now grouping.now }
    ensures numbered { IfOk result (λ found. IsNumbered problem.now found) }
    ensures feasible { IsFeasible problem.now grouping.now → IfOk result (λ found. IsFeasible problem.now found) }
    ensures cheap { IfOk result (λ found. cost problem.now found ≤ℤ cost problem.now grouping.now) }
{
    let mut scratch = vec![in alloc; 0; problem.areas() as usize]?;
    if is_no_worse(problem, &found, grouping, &mut scratch) {
        Ok(found)
    } else {
        grouping.copy(alloc)
    }
}

// Whether what was found is feasible and costs no more than the given grouping.
fn is_no_worse(
    problem: &Problem,
    found: &Grouping,
    grouping: &Grouping,
    scratch: &mut Vec<u32>,
) -> bool
    requires numbered { IsNumbered problem.now grouping.now }
    requires room { length scratch.old.items ≡ areas problem.now }
    ensures feasible { IsTrue result → IsFeasible problem.now found.now }
    ensures cheap { IsTrue result → cost problem.now found.now ≤ℤ cost problem.now grouping.now }
{
    numbered(problem, found)
        && cost(problem, found) <= cost(problem, grouping)
        && feasible(problem, found, scratch).is_ok()
}

// What the search finds.
fn find(
    alloc: Global,
    problem: &Problem,
    grouping: &Grouping,
    turns: u64,
) -> Result<Grouping, NoMemory>
    requires { IsNumbered problem.now grouping.now }
{
    let net = Net::of(alloc, problem)?;
    let parts = parts(alloc, problem)?;
    let given = classes_of(alloc, problem, grouping)?;
    let mut searcher = Searcher::of(alloc, &net, net.own_classes(alloc)?)?;
    searcher.grow(&net);
    searcher.join(&net);
    searcher.choose(alloc, &net, &parts, &given)?;
    searcher.take_turns(&net, turns);
    searcher.grouping(alloc, &net)
}

// What the search finds from wanted classes.
fn find_near(
    alloc: Global,
    problem: &Problem,
    grouping: &Grouping,
    wanted: &[u8],
    turns: u64,
) -> Result<Grouping, NoMemory>
    requires { IsNumbered problem.now grouping.now }
{
    let net = Net::of(alloc, problem)?;
    let parts = parts(alloc, problem)?;
    let given = classes_of(alloc, problem, grouping)?;
    let first = first_classes(alloc, net.classes(), &given, wanted)?;
    let mut searcher = Searcher::of(alloc, &net, first)?;
    searcher.grow_within(&net, turns.saturating_mul(TURN_LOOKS).min(MOST_LOOKS / 2));
    searcher.join(&net);
    let places = searcher.places_apart(alloc, &net, &given)?;
    searcher.take_turns_at(&net, &places, turns);
    searcher.choose(alloc, &net, &parts, &given)?;
    searcher.grouping(alloc, &net)
}

// The wanted class of each area, where it is a class, else the given one.
fn first_classes(
    alloc: Global,
    classes: u8,
    given: &[u8],
    wanted: &[u8],
) -> Result<Vec<u8>, NoMemory> {
    let mut first = Vec::with_capacity(alloc, given.len())?;
    for area in 0..given.len() {
        let class = at(wanted, area, classes);
        first.push(if class < classes { class } else { given[area] })?;
    }
    Ok(first)
}

// The class of each area.
fn classes_of(alloc: Global, problem: &Problem, grouping: &Grouping) -> Result<Vec<u8>, NoMemory>
    requires { IsNumbered problem.now grouping.now }
{
    let mut classes = Vec::with_capacity(alloc, problem.areas() as usize)?;
    for area in 0..problem.areas() {
        classes.push(grouping.class_at(area))?;
    }
    Ok(classes)
}

impl Searcher {
    // Takes so many turns, or fewer where they are much work.
    fn take_turns(&mut self, net: &Net, turns: u64) {
        let areas = u64::from(net.areas());
        let work = turns
            .saturating_mul(TURN_LOOKS)
            .saturating_add(MORE_LOOKS)
            .min(MOST_LOOKS);
        let end = self.state.work().saturating_add(work);
        for turn in 0..turns {
            if self.state.work() > end {
                break;
            }
            let Some(area) = turn.checked_rem(areas) else {
                break;
            };
            self.turn(net, area as u32, turn < areas);
        }
    }

    // The areas whose classes differ from the given ones.
    fn places_apart(&self, alloc: Global, net: &Net, given: &[u8]) -> Result<Vec<u32>, NoMemory> {
        let mut places = Vec::new(alloc);
        for area in 0..net.areas() {
            if self.state.class(area) != at(given, area as usize, 0) {
                places.push(area)?;
            }
        }
        Ok(places)
    }

    // Takes so many turns at these areas, one after the other, or fewer where they are much work.
    fn take_turns_at(&mut self, net: &Net, places: &[u32], turns: u64) {
        let count = places.len() as u64;
        let work = turns.saturating_mul(TURN_LOOKS).min(MOST_LOOKS / 2);
        let end = self.state.work().saturating_add(work);
        for turn in 0..turns {
            if self.state.work() > end {
                break;
            }
            let Some(place) = turn.checked_rem(count) else {
                break;
            };
            let area = at(places, place as usize, 0);
            self.turn(net, area, turn < count);
        }
    }

    // The grouping whose regions are those of the state, by their least areas.
    fn grouping(&mut self, alloc: Global, net: &Net) -> Result<Grouping, NoMemory> {
        let mut region_of = vec![in alloc; NO_REGION; net.areas() as usize]?;
        let mut class_of = Vec::new(alloc);
        let mut regions = 0u32;
        for area in 0..net.areas() {
            if at(&region_of, area as usize, 0) == NO_REGION {
                self.explorer.explore(net, &mut self.state, area);
                number(&mut region_of, self.explorer.found_areas(), regions);
                class_of.push(self.state.class(area))?;
                regions = regions.saturating_add(1);
            }
        }
        Ok(Grouping {
            region_of,
            class_of,
        })
    }
}

// Gives areas a region.
fn number(region_of: &mut [u32], areas: &[u32], region: u32) {
    for area in areas {
        put(region_of, *area as usize, region);
    }
}
