// Tallies of components: whether an area of it owns its class, and what its areas weigh.
ghost use Rattle.std.specs.Prelude.{◌≡◌, ◌<◌, ◌==◌, ◌||◌, ◌+ℤ◌, EachIndex, length, slice_index, slice_index_or, pos, false};
ghost use Rattle.agg_model.specs.Problem.{areas, own_of, weight_of};
ghost use Rattle.fixed_value.specs.Components.{AreComponents, IsLight, AreTallies, tally_at};

use agg_model::Problem;
use union_find::Forest;

// What those areas of a component say that were looked at: whether one owns the class, and what they weigh together (in twice the square unit).
#[derive(Clone, Copy)]
pub(crate) struct Tally {
    pub(crate) owned: bool,
    pub(crate) weight: i128,
}

// Tallies each component, by its head.
pub(crate) fn tally_all(problem: &Problem, kinds: &[u8], heads: &mut Forest, tallies: &mut [Tally])
    requires kinds { length kinds.now ≡ areas problem.now }
    requires heads { AreComponents problem.now (λ v. slice_index kinds.now v) heads.old }
    requires tallies { length tallies.old ≡ areas problem.now }
    ensures heads { heads.new ≡ heads.old }
    ensures tallies { AreTallies problem.now (λ v. slice_index kinds.now v) (areas problem.now) tallies.new }
{
    clear(tallies);
    for area in 0..problem.areas() {
        let head = heads.least(area) as usize;
        tallies[head] = tally_with(problem, tallies[head], area, kinds[head]);
    }
}

// Makes each tally one of no areas.
fn clear(tallies: &mut [Tally])
    ensures length { length tallies.new ≡ length tallies.old }
    ensures none { EachIndex tallies.new (λ r. tally_at tallies.new r ≡ record { owned = false; weight = pos 0 }) }
{
    for tally in tallies.iter_mut() {
        *tally = Tally {
            owned: false,
            weight: 0,
        };
    }
}

// The tally with one more area.
fn tally_with(problem: &Problem, tally: Tally, area: u32, class: u8) -> Tally
    requires area { area < areas problem.now }
    requires light { IsLight problem.now area tally }
    ensures owned { result.owned ≡ (tally.owned || (own_of problem.now area == class)) }
    ensures weight { result.weight ≡ tally.weight +ℤ weight_of problem.now area }
{
    let is_own = problem.own(area) == class;
    Tally {
        owned: tally.owned || is_own,
        weight: tally.weight + problem.weight(area),
    }
}
