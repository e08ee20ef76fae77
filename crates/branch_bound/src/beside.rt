// Which areas links join with each area.
use crate::lists::{at, put};
use agg_base::NoMemory;
use agg_model::{Link, Problem};
use std::alloc::Global;

#[derive(Drop)]
pub(crate) struct Beside {
    // Where the areas beside each area begin, and where those of the last one end.
    firsts: Vec<u32>,
    areas: Vec<u32>,
}

impl Beside {
    pub(crate) fn of(alloc: Global, problem: &Problem) -> Result<Beside, NoMemory> {
        let links = problem.links();
        let firsts = firsts(alloc, problem.areas() as usize, links)?;
        let areas = ends(alloc, &firsts, links)?;
        Ok(Beside { firsts, areas })
    }

    // The areas beside one.
    pub(crate) fn area(&self, area: u32) -> &[u32] {
        let first = at(&self.firsts, area as usize, 0) as usize;
        let end = at(&self.firsts, area as usize + 1, 0) as usize;
        self.areas.get(first..end).unwrap_or(&[])
    }
}

// Where the areas beside each area begin.
fn firsts(alloc: Global, areas: usize, links: &[Link]) -> Result<Vec<u32>, NoMemory> {
    let mut firsts = counts(alloc, areas, links)?;
    let mut sum = 0u32;
    for first in &mut firsts {
        let count = *first;
        *first = sum;
        sum = sum.saturating_add(count);
    }
    Ok(firsts)
}

// How many areas are beside each area, and a 0 behind the last one.
fn counts(alloc: Global, areas: usize, links: &[Link]) -> Result<Vec<u32>, NoMemory> {
    let mut counts = vec![in alloc; 0u32; areas.saturating_add(1)]?;
    for link in links {
        raise(&mut counts, link.a);
        raise(&mut counts, link.b);
    }
    Ok(counts)
}

// Adds 1 at a place, and says what stood there.
fn raise(list: &mut [u32], place: u32) -> u32 {
    let count = at(list, place as usize, 0);
    put(list, place as usize, count.saturating_add(1));
    count
}

// The areas beside all areas, one area behind the other.
fn ends(alloc: Global, firsts: &[u32], links: &[Link]) -> Result<Vec<u32>, NoMemory> {
    let mut ends = vec![in alloc; 0u32; links.len().saturating_mul(2)]?;
    let mut next = Vec::from_slice(alloc, firsts)?;
    for link in links {
        let place = raise(&mut next, link.a);
        put(&mut ends, place as usize, link.b);
        let place = raise(&mut next, link.b);
        put(&mut ends, place as usize, link.a);
    }
    Ok(ends)
}
