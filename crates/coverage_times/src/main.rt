//! How long the check of a coverage takes: it checks four made coverages and prints how many areas each has, and with any word behind the
//! program's name also the time of each check.
#![tactic(auto)]

use agg_base::{NoMemory, Text};
use coverage_check::check;
use crew_work::Alone;
use plane_edge::{Area, Coverage, Frame, Point};
use std::alloc::Global;
use std::rt::Env;
use std::test::Fail;
use std::time::Instant;
use std::{env, io};

// Appends a corner to a ring.
fn corner(ring: &mut Vec<Point>, x: u32, y: u32) -> Result<(), NoMemory> {
    if let Some(p) = Point::of(i64::from(x), i64::from(y)) {
        ring.push(p)?;
    }
    Ok(())
}

// The ring of a unit cell.
fn cell(alloc: Global, x: u32, y: u32) -> Result<Vec<Point>, NoMemory> {
    let mut ring = Vec::new(alloc);
    let right = x.saturating_add(1);
    let top = y.saturating_add(1);
    corner(&mut ring, x, y)?;
    corner(&mut ring, right, y)?;
    corner(&mut ring, right, top)?;
    corner(&mut ring, x, top)?;
    Ok(ring)
}

// Appends an area of one cell.
fn push_cell(areas: &mut Vec<Area>, alloc: Global, x: u32, y: u32) -> Result<(), NoMemory> {
    let mut rings = Vec::new(alloc);
    rings.push(cell(alloc, x, y)?)?;
    areas.push(Area::of_rings(alloc, Text::of(alloc, "1")?, &rings)?)?;
    Ok(())
}

// Each cell an area.
fn cells(alloc: Global, width: u32, height: u32) -> Result<Vec<Area>, NoMemory> {
    let mut areas = Vec::new(alloc);
    for y in 0..height {
        for x in 0..width {
            push_cell(&mut areas, alloc, x, y)?;
        }
    }
    Ok(areas)
}

// All cells of one colour of a checkerboard, as one area.
fn colour_of(alloc: Global, side: u32, colour: u32) -> Result<Area, NoMemory> {
    let mut rings = Vec::new(alloc);
    for y in 0..side {
        for x in 0..side {
            if (x % 2) ^ (y % 2) == colour {
                rings.push(cell(alloc, x, y)?)?;
            }
        }
    }
    Area::of_rings(alloc, Text::of(alloc, "1")?, &rings)
}

// A checkerboard of two areas.
fn board(alloc: Global, side: u32) -> Result<Vec<Area>, NoMemory> {
    let mut areas = Vec::new(alloc);
    areas.push(colour_of(alloc, side, 0)?)?;
    areas.push(colour_of(alloc, side, 1)?)?;
    Ok(areas)
}

// How many areas the checked coverage has, or 0 where it is refused.
fn answer(alloc: Global, areas: Vec<Area>) -> usize {
    let Some(coverage) = Coverage::of(areas, 0, Frame::Plain) else {
        return 0;
    };
    match check(alloc, coverage, &Alone) {
        Ok(map) => map.areas(),
        Err(_) => 0,
    }
}

// Whether there is a word behind the program's name.
fn is_timed(rt: &(impl Env + AllocGlobal)) -> io::Result<bool> {
    let mut timed = false;
    for _ in env::args(rt)?.skip(1) {
        timed = true;
    }
    Ok(timed)
}

fn main(rt: HostRuntime) -> Result<(), Fail> {
    let alloc = rt.alloc();
    let timed = is_timed(&rt)?;
    for (name, width, height) in [
        ("cells", 100, 100),
        ("cells", 256, 256),
        ("cells", 65_536, 1),
        ("board", 400, 400),
    ] {
        let areas = if name == "board" {
            board(alloc, width)?
        } else {
            cells(alloc, width, height)?
        };
        let start = Instant::now(&rt)?;
        let count = answer(alloc, areas);
        let took = start.elapsed(&rt)?.as_millis();
        if timed {
            println!(rt; "{width} by {height} {name}: {count} areas, {took} ms")?;
        } else {
            println!(rt; "{width} by {height} {name}: {count} areas")?;
        }
    }
    Ok(())
}
