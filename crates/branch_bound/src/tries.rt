// Better groupings on the way. The cheapest classes of a leaf, for each area the allowed class of which its sum leaves least, are near to what the
// best grouping inside the leaf's domains has. Where they differ much from the best grouping, they are handed to a search for groupings.
//
// Turns are counted, and no clock is read. All tries of one search take at most as many turns as its start did: on a map of few areas half of them
// at the root, and the rest dealt out over a number of leaves.
ghost use Rattle.std.specs.Prelude.{◌<◌};
ghost use Rattle.agg_model.specs.Problem.{areas};
ghost use Rattle.bound_rows.specs.Domains.{IsFor};

use crate::lists::at;
use crate::rests::Rests;
use agg_base::NoMemory;
use agg_model::{Grouping, Problem};
use bound_rows::{Domains, RowSum};
use std::alloc::Global;

// How many turns the try at the root takes: so many for each area, or so many for each and so many more, whichever is less.
const FEW_AREAS_TURNS: u64 = 16;

const AREA_TURNS: u64 = 2;

const MORE_TURNS: u64 = 1_000;

// How many tries there are after that at most, and how many turns they take: together as many as that for few areas, and at most so many each.
const LATER: u32 = 24;

const LATER_TURNS: u64 = 300;

// The part of the areas whose classes must differ, and at how many leaves their classes are looked at.
const PART: u32 = 20;

const LOOKS: u32 = 2_000;

// What a search has tried.
#[derive(Drop)]
pub(crate) struct Tries {
    // How many tries there were.
    count: u32,
    // At how many leaves the classes were looked at.
    looks: u32,
    // The classes that were tried last.
    last: Vec<u8>,
}

impl Tries {
    // None yet. It takes no memory.
    pub(crate) fn new(alloc: Global) -> Tries {
        Tries {
            count: 0,
            looks: 0,
            last: Vec::new(alloc),
        }
    }

    // The cheapest classes of a leaf, where they are worth a try.
    pub(crate) fn classes(
        &mut self,
        alloc: Global,
        problem: &Problem,
        domains: &Domains,
        sum: &RowSum,
        best: &Grouping,
    ) -> Result<Option<Vec<u8>>, NoMemory>
        requires { IsFor problem.now domains.now }
    {
        if self.count > LATER || self.looks >= LOOKS {
            return Ok(None);
        }
        self.looks = self.looks.saturating_add(1);
        let classes = cheapest_classes(alloc, problem, domains, sum)?;
        let least = (problem.areas() / PART).max(1);
        if apart_from_best(&classes, best) < least || apart(&classes, &self.last) < least {
            return Ok(None);
        }
        Ok(Some(classes))
    }

    // Counts a try of these classes, and says how many turns it takes.
    pub(crate) fn begin(&mut self, problem: &Problem, classes: Vec<u8>) -> u64 {
        let areas = u64::from(problem.areas());
        let turns = if self.count == 0 {
            (areas * FEW_AREAS_TURNS).min(areas * AREA_TURNS + MORE_TURNS)
        } else {
            (areas * FEW_AREAS_TURNS / u64::from(LATER)).min(LATER_TURNS)
        };
        self.count = self.count.saturating_add(1);
        self.last = classes;
        turns
    }

    // The classes that were tried last.
    pub(crate) fn last(&self) -> &[u8] {
        &self.last
    }
}

// For each area the allowed class of which the sum leaves least, the first at a tie.
fn cheapest_classes(
    alloc: Global,
    problem: &Problem,
    domains: &Domains,
    sum: &RowSum,
) -> Result<Vec<u8>, NoMemory>
    requires { IsFor problem.now domains.now }
{
    let rests = Rests::of(alloc, problem, sum)?;
    let mut classes = Vec::with_capacity(alloc, problem.areas() as usize)?;
    for area in 0..problem.areas() {
        classes.push(cheapest_class(problem, domains, &rests, area))?;
    }
    Ok(classes)
}

// The allowed class of which least is left at an area, the first at a tie.
fn cheapest_class(problem: &Problem, domains: &Domains, rests: &Rests, area: u32) -> u8
    requires domains { IsFor problem.now domains.now }
    requires area { area < areas problem.now }
{
    let mut best = 0;
    let mut least = i128::MAX;
    for class in 0..problem.classes() {
        let left = rests.left(area, class);
        if left < least && domains.allows(area, class) {
            best = class;
            least = left;
        }
    }
    best
}

// How many areas have another class in the best grouping.
fn apart_from_best(classes: &[u8], best: &Grouping) -> u32 {
    let mut count = 0u32;
    for area in 0..classes.len() {
        let region = at(&best.region_of, area, 0) as usize;
        if at(&best.class_of, region, 0) != classes[area] {
            count = count.saturating_add(1);
        }
    }
    count
}

// How many areas have other classes in another list.
fn apart(classes: &[u8], other: &[u8]) -> u32 {
    let mut count = 0u32;
    for area in 0..classes.len() {
        if other.get(area) != Some(&classes[area]) {
            count = count.saturating_add(1);
        }
    }
    count
}
