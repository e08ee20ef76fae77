// A problem laid out for the steps: what each choice costs, and which areas are linked with each.
//
// A kind is a class that some area owns, numbered from 0. A choice is an area and a kind: that of area v and kind k stands at v * K + k.
ghost use Rattle.std.specs.Prelude.{◌≡◌, ◌<◌, ◌≤◌};
ghost use Rattle.agg_model.specs.Problem.{areas};

use crate::fixed::nearest_price;
use crate::lists::{at, put};
use agg_base::NoMemory;
use agg_base::limits::DENOMINATOR;
use agg_model::{Link, Problem};
use std::alloc::Global;

// Costs over the denominator stay below 2^60.
const MOST_COST: i128 = 281_474_976_710_656;

// Halvings that a cost below 2^110 may need.
const MOST_HALVINGS: u32 = 64;

// What stands for a class that is no kind.
pub(crate) const NO_KIND: u8 = u8::MAX;

// A link: the first choices of its two areas, and what it costs over the denominator.
#[derive(Clone, Copy, PartialEq, Eq)]
pub(crate) struct Tie {
    pub(crate) near: usize,
    pub(crate) far: usize,
    pub(crate) pull: i64,
}

// How costs are told: over a denominator, after so many halvings.
#[derive(Clone, Copy, PartialEq, Eq)]
pub(crate) struct Units {
    pub(crate) denominator: u32,
    pub(crate) halvings: u32,
}

impl Units {
    // The finest units for costs up to the greatest one.
    fn of(greatest: i128) -> Units {
        let mut units = Units {
            denominator: DENOMINATOR,
            halvings: 0,
        };
        for _ in 0..MOST_HALVINGS {
            if units.is_fine(greatest) {
                break;
            }
            units = units.coarser();
        }
        units
    }

    fn is_fine(self, greatest: i128) -> bool {
        greatest.wrapping_shr(self.halvings) <= MOST_COST / i128::from(self.denominator.max(1))
    }

    fn coarser(self) -> Units {
        if self.denominator > 1 {
            Units {
                denominator: self.denominator / 2,
                halvings: 0,
            }
        } else {
            Units {
                denominator: 1,
                halvings: self.halvings.saturating_add(1),
            }
        }
    }

    // A cost in these units.
    pub(crate) fn of_cost(self, cost: i128) -> i64 {
        let halved = cost.wrapping_shr(self.halvings);
        nearest_price(halved.wrapping_mul(i128::from(self.denominator)))
    }

    // The cost that a total in these units stands for, rounded up.
    pub(crate) fn worth(self, total: i128) -> i128 {
        let doubled = total.wrapping_shl(self.halvings);
        let divisor = i128::from(self.denominator);
        let rest = doubled.checked_rem(divisor).unwrap_or(0);
        let floor = doubled.checked_div(divisor).unwrap_or(0);
        if rest > 0 {
            floor.wrapping_add(1)
        } else {
            floor
        }
    }
}

#[derive(Drop)]
pub(crate) struct Net {
    pub(crate) areas: usize,
    pub(crate) units: Units,
    // The kinds' classes, rising.
    pub(crate) classes: Vec<u8>,
    // The own kind of each area.
    own: Vec<u8>,
    weight: Vec<i128>,
    // By kind.
    threshold: Vec<i128>,
    pub(crate) ties: Vec<Tie>,
    // Where the neighbours of each area begin, and where those of the last one end.
    first: Vec<u32>,
    beside: Vec<u32>,
    // By choice.
    pub(crate) cost: Vec<i64>,
    // By area, what all its links cost together.
    pub(crate) pulls: Vec<i64>,
}

impl Net {
    pub(crate) fn of(alloc: Global, problem: &Problem) -> Result<Net, NoMemory> {
        let areas = problem.areas() as usize;
        let (classes, kind_of) = kinds(alloc, problem)?;
        let units = Units::of(greatest_cost(problem));
        let first = firsts(alloc, areas, problem.links())?;
        let beside = neighbours(alloc, &first, problem.links())?;
        let ties = ties(alloc, problem, classes.len(), units)?;
        let pulls = pulls(alloc, areas, classes.len(), &ties)?;
        Ok(Net {
            areas,
            units,
            own: own_kinds(alloc, problem, &kind_of)?,
            weight: weights(alloc, problem)?,
            threshold: thresholds(alloc, problem, &classes)?,
            ties,
            first,
            beside,
            cost: costs(alloc, problem, &classes, units)?,
            pulls,
            classes,
        })
    }

    // Whether another problem is laid out in the same way.
    pub(crate) fn is_same(&self, other: &Net) -> bool {
        self.areas == other.areas
            && self.units == other.units
            && self.classes.as_slice() == other.classes.as_slice()
            && self.own.as_slice() == other.own.as_slice()
            && self.weight.as_slice() == other.weight.as_slice()
            && self.threshold.as_slice() == other.threshold.as_slice()
            && self.cost.as_slice() == other.cost.as_slice()
            && self.ties.as_slice() == other.ties.as_slice()
    }

    pub(crate) fn kinds(&self) -> usize {
        self.classes.len()
    }

    pub(crate) fn own(&self, area: usize) -> usize {
        at(&self.own, area, 0) as usize
    }

    pub(crate) fn weight(&self, area: usize) -> i128 {
        at(&self.weight, area, 1)
    }

    pub(crate) fn threshold(&self, kind: usize) -> i128 {
        at(&self.threshold, kind, 0)
    }

    // The choice of an area and a kind.
    pub(crate) fn choice(&self, area: usize, kind: usize) -> usize {
        area.wrapping_mul(self.classes.len()).wrapping_add(kind)
    }

    // The areas that are linked with an area.
    pub(crate) fn beside(&self, area: usize) -> &[u32] {
        let first = at(&self.first, area, 0) as usize;
        let end = at(&self.first, area.wrapping_add(1), 0) as usize;
        self.beside.get(first..end).unwrap_or(&[])
    }
}

// The classes that some area owns, and the kind of each class.
fn kinds(alloc: Global, problem: &Problem) -> Result<(Vec<u8>, Vec<u8>), NoMemory> {
    let is_owned = are_owned(alloc, problem)?;
    let mut classes = Vec::new(alloc);
    let mut kind_of = vec![in alloc; NO_KIND; problem.classes() as usize]?;
    for class in 0..problem.classes() {
        if at(&is_owned, class as usize, false) {
            put(&mut kind_of, class as usize, classes.len().min(63) as u8);
            classes.push(class)?;
        }
    }
    Ok((classes, kind_of))
}

// By class, whether an area owns it.
fn are_owned(alloc: Global, problem: &Problem) -> Result<Vec<bool>, NoMemory> {
    let mut is_owned = vec![in alloc; false; problem.classes() as usize]?;
    for area in 0..problem.areas() {
        put(&mut is_owned, problem.own(area) as usize, true);
    }
    Ok(is_owned)
}

fn own_kinds(alloc: Global, problem: &Problem, kind_of: &[u8]) -> Result<Vec<u8>, NoMemory> {
    let mut own = Vec::with_capacity(alloc, problem.areas() as usize)?;
    for area in 0..problem.areas() {
        own.push(at(kind_of, problem.own(area) as usize, 0))?;
    }
    Ok(own)
}

fn weights(alloc: Global, problem: &Problem) -> Result<Vec<i128>, NoMemory> {
    let mut weights = Vec::with_capacity(alloc, problem.areas() as usize)?;
    for area in 0..problem.areas() {
        weights.push(problem.weight(area))?;
    }
    Ok(weights)
}

// The threshold of each kind.
fn thresholds(alloc: Global, problem: &Problem, classes: &[u8]) -> Result<Vec<i128>, NoMemory> {
    let mut thresholds = Vec::with_capacity(alloc, classes.len())?;
    for class in classes {
        if *class < problem.classes() {
            thresholds.push(problem.threshold(*class))?;
        }
    }
    Ok(thresholds)
}

// What the link costs between regions.
fn link_cost(problem: &Problem, link: &Link) -> i128 {
    i128::from(problem.border()).wrapping_mul(link.length)
}

// The greatest cost of a link or of an area in some class.
fn greatest_cost(problem: &Problem) -> i128 {
    let mut greatest = 1i128;
    for link in problem.links() {
        greatest = greatest.max(link_cost(problem, link));
    }
    for area in 0..problem.areas() {
        greatest = greatest.max(
            problem
                .weight(area)
                .wrapping_mul(farthest(problem, problem.own(area))),
        );
    }
    greatest
}

// The greatest distance from a class.
fn farthest(problem: &Problem, from: u8) -> i128
    requires { from < problem.now.classes }
{
    let mut greatest = 0;
    for to in 0..problem.classes() {
        greatest = greatest.max(problem.distance(from, to));
    }
    i128::from(greatest)
}

// What each choice costs.
fn costs(
    alloc: Global,
    problem: &Problem,
    classes: &[u8],
    units: Units,
) -> Result<Vec<i64>, NoMemory> {
    let mut costs = Vec::new(alloc);
    for area in 0..problem.areas() {
        push_costs(&mut costs, problem, area, classes, units)?;
    }
    Ok(costs)
}

// Appends what the choices of an area cost.
fn push_costs(
    costs: &mut Vec<i64>,
    problem: &Problem,
    area: u32,
    classes: &[u8],
    units: Units,
) -> Result<(), NoMemory>
    requires { area < areas problem.now }
{
    let own = problem.own(area);
    for class in classes {
        if *class < problem.classes() {
            let distance = i128::from(problem.distance(own, *class));
            costs.push(units.of_cost(problem.weight(area).wrapping_mul(distance)))?;
        }
    }
    Ok(())
}

fn ties(
    alloc: Global,
    problem: &Problem,
    kinds: usize,
    units: Units,
) -> Result<Vec<Tie>, NoMemory> {
    let mut ties = Vec::with_capacity(alloc, problem.links().len())?;
    for link in problem.links() {
        ties.push(Tie {
            near: (link.a as usize).wrapping_mul(kinds),
            far: (link.b as usize).wrapping_mul(kinds),
            pull: units.of_cost(link_cost(problem, link)),
        })?;
    }
    Ok(ties)
}

// What the links of each area cost together.
fn pulls(alloc: Global, areas: usize, kinds: usize, ties: &[Tie]) -> Result<Vec<i64>, NoMemory> {
    let mut pulls = vec![in alloc; 0; areas]?;
    for tie in ties {
        add_pull(
            &mut pulls,
            tie.near.checked_div(kinds).unwrap_or(0),
            tie.pull,
        );
        add_pull(
            &mut pulls,
            tie.far.checked_div(kinds).unwrap_or(0),
            tie.pull,
        );
    }
    Ok(pulls)
}

fn add_pull(pulls: &mut [i64], area: usize, pull: i64) {
    let sum = i128::from(at(pulls, area, 0)).wrapping_add(i128::from(pull));
    put(pulls, area, nearest_price(sum));
}

// Where the neighbours of each area begin.
fn firsts(alloc: Global, areas: usize, links: &[Link]) -> Result<Vec<u32>, NoMemory> {
    let mut firsts = degrees(alloc, areas, links)?;
    let mut sum = 0u32;
    for first in &mut firsts {
        let degree = *first;
        *first = sum;
        sum = sum.saturating_add(degree);
    }
    Ok(firsts)
}

// How many links each area has, and a 0 behind the last one.
fn degrees(alloc: Global, areas: usize, links: &[Link]) -> Result<Vec<u32>, NoMemory> {
    let mut degrees = vec![in alloc; 0u32; areas.saturating_add(1)]?;
    for link in links {
        count(&mut degrees, link.a);
        count(&mut degrees, link.b);
    }
    Ok(degrees)
}

// Adds 1 at a place, and says what stood there.
fn count(list: &mut [u32], place: u32) -> u32 {
    let count = at(list, place as usize, 0);
    put(list, place as usize, count.saturating_add(1));
    count
}

// The neighbours of all areas, one area behind the other.
fn neighbours(alloc: Global, firsts: &[u32], links: &[Link]) -> Result<Vec<u32>, NoMemory> {
    let mut beside = vec![in alloc; 0; links.len().saturating_mul(2)]?;
    let mut next = Vec::from_slice(alloc, firsts)?;
    for link in links {
        let place = count(&mut next, link.a);
        put(&mut beside, place as usize, link.b);
        let place = count(&mut next, link.b);
        put(&mut beside, place as usize, link.a);
    }
    Ok(beside)
}
