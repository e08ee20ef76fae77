//! How long the value of a sum of rows takes: it prints what five sums of some million marks are worth on a map of 65,536 areas, and with any
//! word behind the program's name also the times.
#![tactic(auto)]

ghost use Rattle.bound_rows.specs.Domains.{IsFor};

use agg_model::{Link, Problem, ProblemParts};
use bound_rows::{Bound, Domains, LeafProof, Row, RowSum, Scratch, Set, Weak, marks};
use std::alloc::Global;
use std::rt::{Clock, Env};
use std::test::Fail;
use std::time::Instant;
use std::{env, io};

// The links of 256 by 256 areas, row by row, each linked to the next in its row and to that below.
fn links(alloc: Global) -> Result<Vec<Link>, Fail> {
    let mut links = Vec::new(alloc);
    for area in 0..65_536u32 {
        if area % 256 != 255 {
            links.push(Link {
                a: area,
                b: area + 1,
                length: 256,
            })?;
        }
        if area < 65_280 {
            links.push(Link {
                a: area,
                b: area + 256,
                length: 256,
            })?;
        }
    }
    Ok(links)
}

// 256 by 256 areas of weight 2 in four classes.
fn grid(alloc: Global) -> Result<Problem, Fail> {
    let mut own = Vec::new(alloc);
    for area in 0..65_536u32 {
        own.push((area % 4) as u8)?;
    }
    let parts = ProblemParts {
        classes: 4,
        own,
        weight: vec![in alloc; 2i128; 65_536]?,
        links: links(alloc)?,
        distance: vec![in alloc; 0, 5, 5, 5, 5, 0, 5, 5, 5, 5, 0, 5, 5, 5, 5, 0]?,
        threshold: vec![in alloc; 1_000_000; 4]?,
        border: 1,
    };
    match Problem::of(parts) {
        Some(problem) => Ok(problem),
        None => Err(Fail::new("no problem")),
    }
}

// An escape row of an area, with so many areas from it on as its set.
fn escape(alloc: Global, first: u32, class: u8, count: u32) -> Result<Row, Fail> {
    let mut areas = Vec::new(alloc);
    for at in 0..count {
        areas.push(first.saturating_add(at))?;
    }
    match Set::of(areas) {
        Some(set) => Ok(Row::Escape {
            area: first,
            class,
            set,
        }),
        None => Err(Fail::new("no set")),
    }
}

// So many rows with sets of so many areas, or border rows where there is none.
fn sum(alloc: Global, rows: u32, count: u32) -> Result<RowSum, Fail> {
    let mut list = Vec::new(alloc);
    for at in 0..rows {
        let class = (at % 4) as u8;
        let row = if count == 0 {
            Row::Border {
                link: at,
                side: 0,
                class,
            }
        } else {
            escape(alloc, at % 61_440, class, count)?
        };
        list.push((row, 1i128))?;
    }
    if list.len() > 1_000_000 {
        return Err(Fail::new("too many rows"));
    }
    Ok(RowSum {
        denominator: 1,
        void: false,
        rows: list,
    })
}

// What a sum is worth, and how many microseconds it took to tell that it is sound and what it is worth.
#[derive(Drop)]
struct Trial {
    value: Result<Bound, Weak>,
    to_test: u128,
    to_value: u128,
}

fn try_out(
    alloc: Global,
    clock: &impl Clock,
    problem: &Problem,
    domains: &Domains,
    sum: &RowSum,
) -> Result<Trial, Fail>
    requires { IsFor problem.now domains.now }
{
    let mut scratch = Scratch::new(alloc, problem)?;
    let start = Instant::now(clock)?;
    if sum.sound(problem, domains).is_err() {
        return Err(Fail::new("unsound"));
    }
    let to_test = start.elapsed(clock)?.as_micros();
    let start = Instant::now(clock)?;
    let value = sum.value(problem, domains, &mut scratch);
    let to_value = start.elapsed(clock)?.as_micros();
    Ok(Trial {
        value,
        to_test,
        to_value,
    })
}

// Whether there is a word behind the program's name.
fn is_timed(rt: &(impl Env + AllocGlobal)) -> io::Result<bool> {
    let mut timed = false;
    for _ in env::args(rt)?.skip(1) {
        timed = true;
    }
    Ok(timed)
}

fn main(rt: HostRuntime) -> Result<(), Fail> {
    let alloc = rt.alloc();
    let timed = is_timed(&rt)?;
    let problem = grid(alloc)?;
    let domains = Domains::whole(alloc, &problem)?;
    for (rows, count) in [
        (0u32, 0u32),
        (125_000, 0),
        (111_111, 1),
        (10_000, 92),
        (1_000, 992),
    ] {
        let sum = sum(alloc, rows, count)?;
        let trial = try_out(alloc, &rt, &problem, &domains, &sum)?;
        let size = marks(&sum);
        let value = trial.value;
        println!(rt; "{rows} rows with sets of {count}, {size} marks: {value:?}")?;
        if timed {
            let sound = trial.to_test;
            let took = trial.to_value;
            println!(rt; "sound in {sound} us, value in {took} us")?;
        }
    }
    Ok(())
}
