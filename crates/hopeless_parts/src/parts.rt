// The areas of a hopeless part.
ghost use Rattle.std.specs.Prelude.{◌≡◌, ◌≤◌, length, slice_index, IfOk};
ghost use Rattle.agg_model.specs.Problem.{areas};
ghost use Rattle.agg_model.specs.Parts.{AreParts};
ghost use Rattle.greedy_start.specs.Starts.{IsFirstHopeless};
ghost use Rattle.row_laws.specs.FirstSums.{IsPartOf};
ghost use Rattle.hopeless_parts.specs.Places.{ArePlaces};

use agg_base::NoMemory;
use agg_base::limits::AREAS;
use agg_model::{Problem, parts};
use row_laws::Set;
use std::alloc::Global;

/// The areas of the first hopeless part, whose least area this is, in rising order. Its one refusal is want of memory.
pub fn part_of(alloc: Global, problem: &Problem, area: u32) -> Result<Set, NoMemory>
    requires first { IsFirstHopeless problem.now area }
    requires few { areas problem.now ≤ AREAS }
    ensures { IfOk result (λ part. IsPartOf problem.now area part) }
{
    let parts = parts(alloc, problem)?;
    let places = places_of(alloc, problem, &parts, area)?;
    match Set::of(places) {
        Some(part) => Ok(part),
        None => unreachable!(),
    }
}

// The places of a part's number.
fn places_of(
    alloc: Global,
    problem: &Problem,
    parts: &[u32],
    area: u32,
) -> Result<Vec<u32>, NoMemory>
    requires first { IsFirstHopeless problem.now area }
    requires few { areas problem.now ≤ AREAS }
    requires long { length parts.now ≡ areas problem.now }
    requires parts { AreParts problem.now (λ v. slice_index parts.now v) }
    ensures { IfOk result (λ places. IsPartOf problem.now area places.items) }
{
    members(alloc, parts, area)
}

// The places where a number stands.
fn members(alloc: Global, numbers: &[u32], number: u32) -> Result<Vec<u32>, NoMemory>
    requires { length numbers.now ≤ AREAS }
    ensures { IfOk result (λ places. ArePlaces numbers.now number places.items) }
{
    let mut places = Vec::new(alloc);
    for place in 0..numbers.len() {
        if numbers[place] == number {
            places.push(place as u32)?;
        }
    }
    Ok(places)
}
