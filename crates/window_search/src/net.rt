// A problem laid out for the search: for each area what it is and which areas are linked with it.
//
// By the rules of a problem no sum of the search leaves 2^120, so where a sum or a product is made by an operation that wraps, none does.
ghost use Rattle.std.specs.Prelude.{◌≡◌, ◌<◌, ◌≤◌};
ghost use Rattle.agg_model.specs.Problem.{areas};

use crate::lists::{at, put};
use agg_base::NoMemory;
use agg_model::{Link, Problem};
use std::alloc::Global;

// The way to an area beside one.
#[derive(Clone, Copy)]
pub(crate) struct Step {
    // The area that is linked.
    pub(crate) area: u32,
    // The length of the link.
    pub(crate) length: i128,
}

#[derive(Drop)]
pub(crate) struct Net {
    areas: u32,
    classes: u8,
    border: i128,
    own: Vec<u8>,
    weight: Vec<i128>,
    // Where the steps of each area begin, and where those of the last one end.
    first: Vec<u32>,
    steps: Vec<Step>,
    // The areas of the steps alone.
    beside: Vec<u32>,
    distance: Vec<i128>,
    threshold: Vec<i128>,
}

impl Net {
    pub(crate) fn of(alloc: Global, problem: &Problem) -> Result<Net, NoMemory> {
        let areas = problem.areas() as usize;
        let first = firsts(alloc, areas, problem.links())?;
        let steps = steps(alloc, &first, problem.links())?;
        let beside = ends(alloc, &steps)?;
        Ok(Net {
            areas: problem.areas(),
            classes: problem.classes(),
            border: i128::from(problem.border()),
            own: own_classes(alloc, problem)?,
            weight: weights(alloc, problem)?,
            first,
            steps,
            beside,
            distance: distances(alloc, problem)?,
            threshold: thresholds(alloc, problem)?,
        })
    }

    pub(crate) fn areas(&self) -> u32 {
        self.areas
    }

    pub(crate) fn classes(&self) -> u8 {
        self.classes
    }

    // The own class of each area.
    pub(crate) fn own_classes(&self, alloc: Global) -> Result<Vec<u8>, NoMemory> {
        Ok(Vec::from_slice(alloc, &self.own)?)
    }

    // How much there is to look at in a walk over everything.
    pub(crate) fn size(&self) -> u64 {
        (self.own.len() as u64).saturating_add(self.steps.len() as u64)
    }

    pub(crate) fn own(&self, area: u32) -> u8 {
        at(&self.own, area as usize, 0)
    }

    pub(crate) fn weight(&self, area: u32) -> i128 {
        at(&self.weight, area as usize, 1)
    }

    pub(crate) fn threshold(&self, class: u8) -> i128 {
        at(&self.threshold, class as usize, 0)
    }

    pub(crate) fn distance(&self, from: u8, to: u8) -> i128 {
        let place = (from as usize) * (self.classes as usize) + (to as usize);
        at(&self.distance, place, 0)
    }

    // What a length of border costs.
    pub(crate) fn border(&self, length: i128) -> i128 {
        self.border.wrapping_mul(length)
    }

    // The areas that are linked with an area, in rising order.
    pub(crate) fn beside(&self, area: u32) -> &[u32] {
        let first = at(&self.first, area as usize, 0) as usize;
        let end = at(&self.first, area as usize + 1, 0) as usize;
        self.beside.get(first..end).unwrap_or(&[])
    }

    // The steps from an area, in rising order.
    pub(crate) fn steps(&self, area: u32) -> &[Step] {
        let first = at(&self.first, area as usize, 0) as usize;
        let end = at(&self.first, area as usize + 1, 0) as usize;
        self.steps.get(first..end).unwrap_or(&[])
    }

    // How many areas are linked with an area.
    pub(crate) fn degree(&self, area: u32) -> usize {
        self.beside(area).len()
    }
}

// The own class of each area.
fn own_classes(alloc: Global, problem: &Problem) -> Result<Vec<u8>, NoMemory> {
    let mut own = Vec::with_capacity(alloc, problem.areas() as usize)?;
    for area in 0..problem.areas() {
        own.push(problem.own(area))?;
    }
    Ok(own)
}

// The weight of each area.
fn weights(alloc: Global, problem: &Problem) -> Result<Vec<i128>, NoMemory> {
    let mut weights = Vec::with_capacity(alloc, problem.areas() as usize)?;
    for area in 0..problem.areas() {
        weights.push(problem.weight(area))?;
    }
    Ok(weights)
}

// The threshold of each class.
fn thresholds(alloc: Global, problem: &Problem) -> Result<Vec<i128>, NoMemory> {
    let mut thresholds = Vec::with_capacity(alloc, problem.classes() as usize)?;
    for class in 0..problem.classes() {
        thresholds.push(problem.threshold(class))?;
    }
    Ok(thresholds)
}

// The distances from each class to each class, row by row.
fn distances(alloc: Global, problem: &Problem) -> Result<Vec<i128>, NoMemory> {
    let mut distances = Vec::new(alloc);
    for from in 0..problem.classes() {
        push_distances(&mut distances, problem, from)?;
    }
    Ok(distances)
}

// Appends the distances from a class.
fn push_distances(distances: &mut Vec<i128>, problem: &Problem, from: u8) -> Result<(), NoMemory>
    requires { from < problem.now.classes }
{
    for to in 0..problem.classes() {
        distances.push(i128::from(problem.distance(from, to)))?;
    }
    Ok(())
}

// Where the steps of each area begin.
fn firsts(alloc: Global, areas: usize, links: &[Link]) -> Result<Vec<u32>, NoMemory> {
    let mut firsts = degrees(alloc, areas, links)?;
    let mut sum = 0u32;
    for first in &mut firsts {
        let degree = *first;
        *first = sum;
        sum = sum.saturating_add(degree);
    }
    Ok(firsts)
}

// How many links each area has, and a 0 behind the last one.
fn degrees(alloc: Global, areas: usize, links: &[Link]) -> Result<Vec<u32>, NoMemory> {
    let mut degrees = vec![in alloc; 0u32; areas.saturating_add(1)]?;
    for link in links {
        raise(&mut degrees, link.a);
        raise(&mut degrees, link.b);
    }
    Ok(degrees)
}

// Adds 1 at a place, and says what stood there.
fn raise(list: &mut [u32], place: u32) -> u32 {
    let count = at(list, place as usize, 0);
    put(list, place as usize, count.saturating_add(1));
    count
}

// The steps of all areas, one area behind the other.
fn steps(alloc: Global, firsts: &[u32], links: &[Link]) -> Result<Vec<Step>, NoMemory> {
    let none = Step { area: 0, length: 0 };
    let mut steps = vec![in alloc; none; links.len().saturating_mul(2)]?;
    let mut next = Vec::from_slice(alloc, firsts)?;
    for link in links {
        let place = raise(&mut next, link.a);
        put(
            &mut steps,
            place as usize,
            Step {
                area: link.b,
                length: link.length,
            },
        );
        let place = raise(&mut next, link.b);
        put(
            &mut steps,
            place as usize,
            Step {
                area: link.a,
                length: link.length,
            },
        );
    }
    Ok(steps)
}

// The areas of the steps.
fn ends(alloc: Global, steps: &[Step]) -> Result<Vec<u32>, NoMemory> {
    let mut ends = Vec::with_capacity(alloc, steps.len())?;
    for step in steps {
        ends.push(step.area)?;
    }
    Ok(ends)
}
