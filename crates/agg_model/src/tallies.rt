// Regions whose class no area owns, or that weigh too little. Areas are sorted by region, so that each region is looked at in one run.
ghost use Rattle.std.specs.Prelude.{ℕ, ◌≡◌, ◌<◌, ◌≤◌, ◌+◌, ◌↔◌, IsTrue, length, slice_index};
ghost use Rattle.std.specs.List.{range_with_len};
ghost use Rattle.agg_model.specs.Problem.{IsNumbered, areas, region_weight};
ghost use Rattle.agg_model.specs.Lacks.{IsOwned};
ghost use Rattle.agg_model.specs.Tops.{AreByRegion, IsStart, IsRichAnswer};

use crate::tops::sort_by_region;
use crate::{Grouping, Lack, Problem};

// What the areas of a region say: whether one owns its class, what they weigh together, and the place behind them.
#[derive(Clone, Copy)]
struct Tally {
    owned: bool,
    weight: i128,
    end: usize,
}

// Whether each region below a bound has an owner of its class and weighs its threshold. Else the least that does not, and what it lacks first.
pub(crate) fn first_poor(
    problem: &Problem,
    grouping: &Grouping,
    scratch: &mut Vec<u32>,
    below: u32,
) -> Result<(), Lack>
    requires numbered { IsNumbered problem.now grouping.now }
    requires room { length scratch.old.items ≡ areas problem.now }
    requires below { below ≤ length grouping.now.class_of }
    ensures room { length scratch.new.items ≡ length scratch.old.items }
    ensures answer { IsRichAnswer problem.now grouping.now below result }
{
    list_by_region(problem, grouping, scratch);
    first_light(problem, grouping, scratch, below)
}

// All areas, in the order of their regions.
fn list_by_region(problem: &Problem, grouping: &Grouping, scratch: &mut [u32])
    requires { length scratch.old ≡ areas problem.now }
    ensures length { length scratch.new ≡ length scratch.old }
    ensures areas { AreByRegion problem.now grouping.now scratch.new }
{
    for area in 0..problem.areas() {
        scratch[area as usize] = area;
    }
    sort_by_region(grouping, scratch);
}

// The first lack of an owner or of weight below a bound.
fn first_light(
    problem: &Problem,
    grouping: &Grouping,
    areas: &[u32],
    below: u32,
) -> Result<(), Lack>
    requires numbered { IsNumbered problem.now grouping.now }
    requires areas { AreByRegion problem.now grouping.now areas.now }
    requires below { below ≤ length grouping.now.class_of }
    ensures { IsRichAnswer problem.now grouping.now below result }
{
    let mut start = 0;
    for region in 0..below {
        let tally = tally_of(problem, grouping, areas, region, start);
        if !tally.owned {
            return Err(Lack::NoOwn { region });
        }
        if tally.weight < problem.threshold(grouping.class(region)) {
            return Err(Lack::TooSmall { region });
        }
        start = tally.end;
    }
    Ok(())
}

// What the areas of a region say, which stand from a place on.
fn tally_of(
    problem: &Problem,
    grouping: &Grouping,
    areas: &[u32],
    region: u32,
    start: usize,
) -> Tally
    requires numbered { IsNumbered problem.now grouping.now }
    requires areas { AreByRegion problem.now grouping.now areas.now }
    requires region { region < length grouping.now.class_of }
    requires start { IsStart grouping.now areas.now region start }
    ensures owned { IsTrue result.owned ↔ IsOwned problem.now grouping.now region }
    ensures weight { result.weight ≡ region_weight problem.now grouping.now region }
    ensures end { IsStart grouping.now areas.now (region + 1) result.end }
{
    prove_eq!(areas.len(), problem.areas() as usize);
    let class = grouping.class(region);
    let mut owned = false;
    let mut weight = 0;
    for end in start..areas.len() {
        let area = areas[end];
        if grouping.region(area) != region {
            return Tally { owned, weight, end };
        }
        owned |= problem.own(area) == class;
        weight += problem.weight(area);
    }
    Tally {
        owned,
        weight,
        end: areas.len(),
    }
}
