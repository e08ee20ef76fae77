// The choice on which most hangs and of which least is known: where the two cheapest classes of an area are close by what a sum leaves of them, and
// a change there is dear.
ghost use Rattle.std.specs.Prelude.{◌<◌};
ghost use Rattle.agg_model.specs.Problem.{areas};
ghost use Rattle.bound_rows.specs.Domains.{IsFor};

use crate::lists::{at, put};
use crate::rests::Rests;
use agg_base::NoMemory;
use agg_model::Problem;
use bound_rows::{Domains, RowSum};
use std::alloc::Global;

// How much the gap between the two cheapest classes counts against what is at stake.
const GAP: i128 = 4;

// An area and its cheapest class, and how much there is to tell.
#[derive(Clone, Copy)]
struct Choice {
    area: u32,
    class: u8,
    worth: i128,
}

// The choice of which there is most to tell, the first at a tie.
pub(crate) fn closest_choice(
    alloc: Global,
    problem: &Problem,
    domains: &Domains,
    sum: &RowSum,
) -> Result<(u32, u8), NoMemory>
    requires { IsFor problem.now domains.now }
{
    let rests = Rests::of(alloc, problem, sum)?;
    let stakes = stakes(alloc, problem, i128::from(sum.denominator))?;
    let mut best = Choice {
        area: 0,
        class: 0,
        worth: i128::MIN,
    };
    for area in 0..problem.areas() {
        if domains.single(area) {
            continue;
        }
        let stake = at(&stakes, area as usize, 0);
        let choice = choice_at(problem, domains, &rests, area, stake);
        if choice.worth > best.worth {
            best = choice;
        }
    }
    Ok((best.area, best.class))
}

// What is at stake at each area: the border of all its links, so many times.
fn stakes(alloc: Global, problem: &Problem, times: i128) -> Result<Vec<i128>, NoMemory> {
    let mut stakes = vec![in alloc; 0i128; problem.areas() as usize]?;
    let border = times.wrapping_mul(i128::from(problem.border()));
    for link in problem.links() {
        let cost = border.wrapping_mul(link.length);
        raise(&mut stakes, link.a, cost);
        raise(&mut stakes, link.b, cost);
    }
    Ok(stakes)
}

// Adds to what is at stake at an area.
fn raise(stakes: &mut [i128], area: u32, cost: i128) {
    let stake = at(stakes, area as usize, 0);
    put(stakes, area as usize, stake.saturating_add(cost));
}

// The cheapest class of an area, and how much there is to tell.
fn choice_at(problem: &Problem, domains: &Domains, rests: &Rests, area: u32, stake: i128) -> Choice
    requires domains { IsFor problem.now domains.now }
    requires area { area < areas problem.now }
{
    let mut best = 0;
    let mut least = i128::MAX;
    let mut second = i128::MAX;
    for class in 0..problem.classes() {
        if !domains.allows(area, class) {
            continue;
        }
        let left = rests.left(area, class);
        if left < least {
            second = least;
            least = left;
            best = class;
        } else if left < second {
            second = left;
        }
    }
    let gap = second.saturating_sub(least).saturating_mul(GAP);
    Choice {
        area,
        class: best,
        worth: stake.saturating_sub(gap),
    }
}
