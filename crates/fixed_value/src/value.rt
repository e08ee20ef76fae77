// What areas with single classes are worth.
ghost use Rattle.std.specs.Prelude.{◌≡◌, ◌<◌, ◌||◌, not, int_lt, EachIndex, length, slice_index};
ghost use Rattle.agg_model.specs.Problem.{areas, threshold_of};
ghost use Rattle.row_laws.specs.Fixed.{has_lack_below, fixed_value};
ghost use Rattle.fixed_value.specs.Components.{IsRoomFor, AreComponents, AreTallies};

use crate::Room;
use crate::components::join_kinds;
use crate::costs::cost_of;
use crate::tallies::{Tally, tally_all};
use agg_model::Problem;
use row_laws::Bound;
use union_find::Forest;

/// What areas with these classes are worth: what recolouring and the links between areas of different classes cost, or void where the areas of
/// one class that links join have no owner of the class among them, or weigh less than its threshold.
///
/// It takes no memory, and n areas and m links take at most some (n + m) log n steps.
pub fn fixed_value(problem: &Problem, kinds: &[u8], room: &mut Room) -> Bound
    requires length { length kinds.now ≡ areas problem.now }
    requires below { EachIndex kinds.now (λ v. slice_index kinds.now v < problem.now.classes) }
    requires room { IsRoomFor problem.now room.old }
    ensures value { result ≡ fixed_value problem.now (λ v. slice_index kinds.now v) }
    ensures room { IsRoomFor problem.now room.new }
{
    join_kinds(&mut room.heads, problem, kinds);
    tally_all(problem, kinds, &mut room.heads, &mut room.tallies);
    if has_lack(problem, kinds, &mut room.heads, &room.tallies) {
        Bound::Void
    } else {
        Bound::Least(cost_of(problem, kinds))
    }
}

// Whether a component has no owner of its class, or weighs too little.
fn has_lack(problem: &Problem, kinds: &[u8], heads: &mut Forest, tallies: &[Tally]) -> bool
    requires length { length kinds.now ≡ areas problem.now }
    requires below { EachIndex kinds.now (λ v. slice_index kinds.now v < problem.now.classes) }
    requires heads { AreComponents problem.now (λ v. slice_index kinds.now v) heads.old }
    requires tallies { AreTallies problem.now (λ v. slice_index kinds.now v) (areas problem.now) tallies.now }
    ensures heads { heads.new ≡ heads.old }
    ensures lack { result ≡ has_lack_below problem.now (λ v. slice_index kinds.now v) (areas problem.now) }
{
    for area in 0..problem.areas() {
        let head = heads.least(area) as usize;
        if is_lacking(problem, tallies[head], kinds[head]) {
            return true;
        }
    }
    false
}

// Whether a component of this class lacks an owner or weight.
fn is_lacking(problem: &Problem, tally: Tally, class: u8) -> bool
    requires { class < problem.now.classes }
    ensures { result ≡ (not tally.owned || int_lt tally.weight (threshold_of problem.now class)) }
{
    let threshold = problem.threshold(class);
    !tally.owned || tally.weight < threshold
}
