// The class that one region of all areas of a part gets. Each class is tallied in all parts at once, so n areas and k classes take
// some n * k steps.
ghost use Rattle.std.specs.Prelude.{◌≡◌, ◌<◌, ◌≤◌, ◌+◌, ◌⊎◌, ◌↔◌, ◌+ℤ◌, ◌≤ℤ◌, ℕ, List, length, slice_index, IsTrue, IfOk, EachIndex};
ghost use Rattle.agg_model.specs.Problem.{areas, own_of, weight_of, recolouring};
ghost use Rattle.greedy_start.specs.Tallies.{IsTally, IsLight, AreTallies, IsBestBelow, AreBest};

use agg_base::NoMemory;
use agg_model::{Problem, recolour};
use std::alloc::Global;

/// A class that is open, and what it costs to give it to all areas of the part.
#[derive(Clone, Copy)]
pub struct Best {
    pub class: u8,
    pub recolouring: i128,
}

// What the areas of a part that were looked at say of one class: whether one owns it, what they weigh together (in twice the square unit),
// and what it costs to give them the class.
#[derive(Clone, Copy)]
struct Tally {
    owned: bool,
    weight: i128,
    recolouring: i128,
}

/// For each part, by its least area, the open class of least recolouring, the least number at a tie. None where no class is open.
pub fn best_classes(
    alloc: Global,
    problem: &Problem,
    parts: &[u32],
) -> Result<Vec<Option<Best>>, NoMemory>
    requires length { length parts.now ≡ areas problem.now }
    requires parts { EachIndex parts.now (λ v. slice_index parts.now v < length parts.now) }
    ensures { IfOk result (λ best. AreBest problem.now parts.now problem.now.classes best.items) }
{
    let mut best = vec![in alloc; None; parts.len()]?;
    for class in 0..problem.classes() {
        let tallies = tallies(alloc, problem, parts, class)?;
        improve(&mut best, problem, &tallies, class);
    }
    Ok(best)
}

// What all areas of each part say of one class.
fn tallies(
    alloc: Global,
    problem: &Problem,
    parts: &[u32],
    class: u8,
) -> Result<Vec<Tally>, NoMemory>
    requires class { class < problem.now.classes }
    requires length { length parts.now ≡ areas problem.now }
    requires parts { EachIndex parts.now (λ v. slice_index parts.now v < length parts.now) }
    ensures { IfOk result (λ tallies. AreTallies problem.now parts.now class (areas problem.now) tallies.items) }
{
    let none = Tally {
        owned: false,
        weight: 0,
        recolouring: 0,
    };
    let mut tallies = vec![in alloc; none; parts.len()]?;
    for area in 0..problem.areas() {
        let part = parts[area as usize] as usize;
        tallies[part] = tally_with(problem, tallies[part], area, class);
    }
    Ok(tallies)
}

// The tally with one more area.
fn tally_with(problem: &Problem, tally: Tally, area: u32, class: u8) -> Tally
    requires area { area < areas problem.now }
    requires class { class < problem.now.classes }
    requires light { IsLight problem.now area tally }
    ensures owned { IsTrue result.owned ↔ (IsTrue tally.owned ⊎ (own_of problem.now area ≡ class)) }
    ensures weight { result.weight ≡ tally.weight +ℤ weight_of problem.now area }
    ensures recolouring { result.recolouring ≡ tally.recolouring +ℤ recolouring problem.now area class }
{
    let is_own = problem.own(area) == class;
    Tally {
        owned: tally.owned || is_own,
        weight: tally.weight + problem.weight(area),
        recolouring: tally.recolouring + recolour(problem, area, class),
    }
}

// Puts the class in the place of the best so far, in each part where it is better.
fn improve(best: &mut [Option<Best>], problem: &Problem, tallies: &[Tally], class: u8)
    requires class { class < problem.now.classes }
    requires length { length best.old ≡ length tallies.now }
    ensures length { length best.new ≡ length best.old }
    ensures best { (parts : List ℕ) → AreTallies problem.now parts class (areas problem.now) tallies.now → AreBest problem.now parts class best.old → AreBest problem.now parts (class + 1) best.new }
{
    for part in 0..best.len() {
        best[part] = better_of(problem, best[part], tallies[part], class);
    }
}

// The best class so far, or the next class where that is better.
fn better_of(problem: &Problem, best: Option<Best>, tally: Tally, class: u8) -> Option<Best>
    requires { class < problem.now.classes }
    ensures { (number : ℕ → ℕ) (r : ℕ) → IsTally problem.now number class r (areas problem.now) tally → IsBestBelow problem.now number r class best → IsBestBelow problem.now number r (class + 1) result }
{
    if !tally.owned || tally.weight < problem.threshold(class) {
        return best;
    }
    let recolouring = tally.recolouring;
    match best {
        Some(least) if least.recolouring <= recolouring => best,
        _ => Some(Best { class, recolouring }),
    }
}
