// What a climb begins with: the costs of choices and links, and the tips over them.
ghost use Rattle.std.specs.Prelude.{◌≡◌, ◌<◌, ◌≤◌, ◌+◌, ◌*◌, ◌^◌, ◌≤ℤ◌, ◌<ℤ◌, IfOk, ℕ, ℤ, length, slice_index_or, pos};
ghost use Rattle.whole_ring.specs.Sums.{sum_below};
ghost use Rattle.agg_model.specs.Problem.{Problem, IsProblem, areas, recolouring};
ghost use Rattle.row_laws.specs.Values.{start_at, bordering};
ghost use Rattle.row_laws.specs.FirstSums.{plain_sum};
ghost use Rattle.bound_rows.specs.Domains.{allows, IsFor};
ghost use Rattle.bound_rows.specs.Scratch.{HasRoom, IsAt};
ghost use Rattle.relax_bound.specs.Levels.{numbers_of, number, link_number, AreTips, tip_at};

use crate::left::Left;
use crate::tips::Tip;
use agg_base::NoMemory;
use agg_model::{Problem, recolour};
use bound_rows::Domains;
use std::alloc::Global;

impl Left {
    // What is left where no row takes anything.
    pub(crate) fn new(alloc: Global, problem: &Problem) -> Result<Left, NoMemory>
        ensures { IfOk result (λ left. IsAt problem.now (start_at problem.now plain_sum) (numbers_of left)) }
    {
        let mut left = Left::blank(alloc, problem)?;
        for area in 0..problem.areas() {
            left.put_choices(problem, area);
        }
        left.put_links(problem);
        Ok(left)
    }

    // Room for all numbers.
    fn blank(alloc: Global, problem: &Problem) -> Result<Left, NoMemory>
        ensures { IfOk result (λ left. HasRoom problem.now (numbers_of left)) }
    {
        let choices = problem.areas() as usize * problem.classes() as usize;
        Ok(Left {
            choices: vec![in alloc; 0i128; choices]?,
            links: vec![in alloc; 0i128; problem.link_count() as usize]?,
        })
    }

    // The costs of the choices of one area.
    fn put_choices(&mut self, problem: &Problem, area: u32)
        requires area { area < areas problem.now }
        requires room { HasRoom problem.now (numbers_of self.old) }
        ensures room { HasRoom problem.now (numbers_of self.new) }
        ensures here { (k : ℕ) → k < problem.now.classes → number problem.now (numbers_of self.new) area k ≡ recolouring problem.now area k }
        ensures before { (v k : ℕ) → v < area → k < problem.now.classes → number problem.now (numbers_of self.new) v k ≡ number problem.now (numbers_of self.old) v k }
    {
        for class in 0..problem.classes() {
            let at = area as usize * problem.classes() as usize + class as usize;
            self.choices[at] = recolour(problem, area, class);
        }
    }

    // The costs of the links between regions.
    fn put_links(&mut self, problem: &Problem)
        requires room { HasRoom problem.now (numbers_of self.old) }
        ensures room { HasRoom problem.now (numbers_of self.new) }
        ensures links { (l : ℕ) → l < length problem.now.links → link_number (numbers_of self.new) l ≡ bordering problem.now l }
        ensures choices { self.new.choices.items ≡ self.old.choices.items }
    {
        for link in 0..problem.link_count() {
            self.links[link as usize] = bordering(problem, link);
        }
    }
}

// What a link costs between regions.
fn bordering(problem: &Problem, link: u32) -> i128
    requires { link < length problem.now.links }
    ensures { result ≡ bordering problem.now link }
{
    problem.link(link).length * i128::from(problem.border())
}

// The tip of each area, where all numbers are 0 or more.
pub(crate) fn tips_of(
    alloc: Global,
    left: &Left,
    problem: &Problem,
    domains: &Domains,
) -> Result<Vec<Tip>, NoMemory>
    requires room { HasRoom problem.now (numbers_of left.now) }
    requires domains { IsFor problem.now domains.now }
    requires low { (v k : ℕ) → v < areas problem.now → k < problem.now.classes → pos 0 ≤ℤ number problem.now (numbers_of left.now) v k }
    ensures { IfOk result (λ tips. AreTips problem.now (allows domains.now) (numbers_of left.now) tips.items) }
{
    let mut tips = Vec::with_capacity(alloc, problem.areas() as usize)?;
    for area in 0..problem.areas() {
        tips.push(left.tip(problem, domains, area))?;
    }
    Ok(tips)
}

// The least numbers, added up.
pub(crate) fn least_sum(tips: &[Tip]) -> i128
    requires low { (v : ℕ) → v < length tips.now → pos 0 ≤ℤ (tip_at tips.now v).least }
    requires most { sum_below (length tips.now) (λ v. (tip_at tips.now v).least) ≤ℤ pos (2 ^ 112) }
    ensures { result ≡ sum_below (length tips.now) (λ v. (tip_at tips.now v).least) }
{
    let mut sum = 0i128;
    for tip in tips {
        sum += tip.least;
    }
    sum
}
