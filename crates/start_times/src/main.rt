//! How long a first grouping takes: it prints what the first groupings of made problems cost, and with any word behind the program's name those
//! of large ones, with the times.
#![tactic(auto)]

use agg_model::{Link, Problem, ProblemParts, cost};
use greedy_start::start;
use std::alloc::Global;
use std::rt::{Clock, Env};
use std::test::Fail;
use std::time::Instant;
use std::{env, io};

// The areas of a made problem and their links. Each area weighs 2 and each link is one side long.
#[derive(Drop)]
struct Shape {
    name: &'static str,
    areas: u32,
    links: Vec<Link>,
}

// A link of one side.
fn side(a: u32, b: u32) -> Link {
    Link { a, b, length: 256 }
}

// So many areas in each of as many rows, each linked to the next in its row and to that below.
fn square(alloc: Global, width: u32) -> Result<Shape, Fail> {
    let areas = width.saturating_mul(width);
    let mut links = Vec::new(alloc);
    for area in 0..areas {
        let right = area.saturating_add(1);
        let below = area.saturating_add(width);
        if right.checked_rem(width).unwrap_or(0) != 0 {
            links.push(side(area, right))?;
        }
        if below < areas {
            links.push(side(area, below))?;
        }
    }
    Ok(Shape {
        name: "a square",
        areas,
        links,
    })
}

// One area with all others round it.
fn star(alloc: Global, areas: u32) -> Result<Shape, Fail> {
    let mut links = Vec::new(alloc);
    for leaf in 1..areas {
        links.push(side(0, leaf))?;
    }
    Ok(Shape {
        name: "a star",
        areas,
        links,
    })
}

// Each area linked to the next.
fn chain(alloc: Global, areas: u32) -> Result<Shape, Fail> {
    let mut links = Vec::new(alloc);
    for next in 1..areas {
        links.push(side(next.saturating_sub(1), next))?;
    }
    Ok(Shape {
        name: "a chain",
        areas,
        links,
    })
}

// One area with all others round it, each of them linked to the next.
fn wheel(alloc: Global, areas: u32) -> Result<Shape, Fail> {
    let mut links = Vec::new(alloc);
    for leaf in 1..areas {
        links.push(side(0, leaf))?;
    }
    for next in 2..areas {
        links.push(side(next.saturating_sub(1), next))?;
    }
    Ok(Shape {
        name: "a wheel",
        areas,
        links,
    })
}

// Own classes as good as drawn.
fn own_classes(alloc: Global, areas: u32, classes: u8) -> Result<Vec<u8>, Fail> {
    let mut own = Vec::new(alloc);
    let mut state = 1u64;
    for _ in 0..areas {
        state = state.wrapping_mul(1_103_515_245).wrapping_add(12_345) % 2_147_483_648;
        let class = (state / 65_536)
            .checked_rem(u64::from(classes))
            .unwrap_or(0);
        own.push(class as u8)?;
    }
    Ok(own)
}

// Distances that grow with the numbers of the classes.
fn distances(alloc: Global, classes: u8) -> Result<Vec<u32>, Fail> {
    let mut distance = Vec::new(alloc);
    for from in 0..classes {
        for to in 0..classes {
            distance.push(
                u32::from(from.abs_diff(to))
                    .saturating_mul(1_000)
                    .min(10_000),
            )?;
        }
    }
    Ok(distance)
}

// The problem of a shape in so many classes, of which each asks for so much weight.
fn problem_of(alloc: Global, shape: Shape, classes: u8, threshold: i128) -> Result<Problem, Fail> {
    let areas = shape.areas;
    let parts = ProblemParts {
        classes,
        own: own_classes(alloc, areas, classes)?,
        weight: vec![in alloc; 2i128; areas as usize]?,
        links: shape.links,
        distance: distances(alloc, classes)?,
        threshold: vec![in alloc; threshold; classes as usize]?,
        border: 1,
    };
    match Problem::of(parts) {
        Some(problem) => Ok(problem),
        None => Err(Fail::new("no problem")),
    }
}

// What the first grouping of a problem costs, and how many milliseconds it took.
fn try_out(alloc: Global, clock: &impl Clock, problem: &Problem) -> Result<(i128, u128), Fail> {
    let began = Instant::now(clock)?;
    let Ok(grouping) = start(alloc, problem) else {
        return Err(Fail::new("no grouping"));
    };
    let took = began.elapsed(clock)?.as_millis();
    Ok((cost(problem, &grouping), took))
}

// Whether there is a word behind the program's name.
fn is_timed(rt: &(impl Env + AllocGlobal)) -> io::Result<bool> {
    let mut timed = false;
    for _ in env::args(rt)?.skip(1) {
        timed = true;
    }
    Ok(timed)
}

// The shapes, large or small, each with its classes and the weight that they ask for.
fn shapes(alloc: Global, is_large: bool) -> Result<Vec<(Shape, u8, i128)>, Fail> {
    let (width, wide, many) = if is_large {
        (122, 256, 60_000)
    } else {
        (6, 9, 40)
    };
    let mut list = Vec::new(alloc);
    list.push((square(alloc, width)?, 5, 8))?;
    list.push((square(alloc, width)?, 64, 8))?;
    list.push((square(alloc, width)?, 5, 40))?;
    list.push((square(alloc, wide)?, 5, 8))?;
    list.push((star(alloc, many)?, 5, 8))?;
    list.push((chain(alloc, many)?, 5, 8))?;
    list.push((wheel(alloc, many)?, 5, 8))?;
    Ok(list)
}

fn main(rt: HostRuntime) -> Result<(), Fail> {
    let alloc = rt.alloc();
    let timed = is_timed(&rt)?;
    for (shape, classes, threshold) in shapes(alloc, timed)? {
        let name = shape.name;
        let areas = shape.areas;
        let problem = problem_of(alloc, shape, classes, threshold)?;
        let (cost, took) = try_out(alloc, &rt, &problem)?;
        println!(rt; "{name} of {areas} areas in {classes} classes of {threshold}: {cost}")?;
        if timed {
            println!(rt; "in {took} ms")?;
        }
    }
    Ok(())
}
