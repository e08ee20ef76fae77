// What rows have left of each choice and each link.
ghost use Rattle.std.specs.Prelude.{◌≡◌, ◌↔◌, ◌<◌, ◌+◌, ◌*◌, ◌≤ℤ◌, ◌-ℤ◌, IfOk, ℕ, ℤ, true, IsTrue, length, slice_index_or, slice_set, pos, FitsSigned};
ghost use Rattle.std.specs.Int.{w128};
ghost use Rattle.agg_model.specs.Problem.{Problem, IsProblem, areas, recolouring};
ghost use Rattle.row_laws.specs.Values.{start_at, bordering};
ghost use Rattle.row_laws.specs.FirstSums.{plain_sum};
ghost use Rattle.bound_rows.specs.Domains.{allows, IsFor};
ghost use Rattle.bound_rows.specs.Scratch.{HasRoom, IsAt};
ghost use Rattle.relax_bound.specs.Levels.{numbers_of, number, link_number, lowered_choice, lowered_link, IsLowest, IsGap, IsTip, IsClass, IsCheaper};

use crate::tips::Tip;
use agg_base::NoMemory;
use agg_model::Problem;
use bound_rows::Domains;
use std::alloc::Global;

/// The most units that a row is taken.
pub(crate) const MOST_UNITS: i128 = 1 << 111;

/// One number for each choice, area by area, and one for each link.
#[derive(Drop)]
pub(crate) struct Left {
    pub(crate) choices: Vec<i128>,
    pub(crate) links: Vec<i128>,
}

impl Left {
    // The number of a choice.
    pub(crate) fn choice(&self, problem: &Problem, area: u32, class: u8) -> i128
        requires area { area < areas problem.now }
        requires class { class < problem.now.classes }
        requires room { HasRoom problem.now (numbers_of self.now) }
        ensures { result ≡ number problem.now (numbers_of self.now) area class }
    {
        self.choices[area as usize * problem.classes() as usize + class as usize]
    }

    // The number of a link.
    pub(crate) fn link(&self, link: u32) -> i128
        requires { link < length self.now.links.items }
        ensures { result ≡ link_number (numbers_of self.now) link }
    {
        self.links[link as usize]
    }

    // Takes an amount from a choice.
    pub(crate) fn lower_choice(&mut self, problem: &Problem, area: u32, class: u8, amount: i128)
        requires area { area < areas problem.now }
        requires class { class < problem.now.classes }
        requires room { HasRoom problem.now (numbers_of self.old) }
        requires fits { FitsSigned w128 (number problem.now (numbers_of self.old) area class) → FitsSigned w128 (number problem.now (numbers_of self.old) area class -ℤ amount) }
        ensures { numbers_of self.new ≡ lowered_choice problem.now (numbers_of self.old) area class amount }
    {
        let at = area as usize * problem.classes() as usize + class as usize;
        self.choices[at] = self.choices[at] - amount;
    }

    // Takes an amount from a link.
    pub(crate) fn lower_link(&mut self, link: u32, amount: i128)
        requires link { link < length self.old.links.items }
        requires fits { FitsSigned w128 (link_number (numbers_of self.old) link) → FitsSigned w128 (link_number (numbers_of self.old) link -ℤ amount) }
        ensures { numbers_of self.new ≡ lowered_link (numbers_of self.old) link amount }
    {
        self.links[link as usize] = self.links[link as usize] - amount;
    }

    // The tip of an area whose numbers are 0 or more.
    pub(crate) fn tip(&self, problem: &Problem, domains: &Domains, area: u32) -> Tip
        requires area { area < areas problem.now }
        requires room { HasRoom problem.now (numbers_of self.now) }
        requires domains { IsFor problem.now domains.now }
        requires low { (k : ℕ) → k < problem.now.classes → pos 0 ≤ℤ number problem.now (numbers_of self.now) area k }
        ensures { IsTip (allows domains.now area) (number problem.now (numbers_of self.now) area) problem.now.classes result }
    {
        let class = self.cheapest(problem, domains, area);
        let least = self.choice(problem, area, class);
        let gap = self.gap(problem, domains, area, class);
        Tip { class, least, gap }
    }

    // A class of the least number among those that an area may have.
    fn cheapest(&self, problem: &Problem, domains: &Domains, area: u32) -> u8
        requires area { area < areas problem.now }
        requires room { HasRoom problem.now (numbers_of self.now) }
        requires domains { IsFor problem.now domains.now }
        ensures { IsLowest (allows domains.now area) (number problem.now (numbers_of self.now) area) problem.now.classes result }
    {
        let mut best = None;
        for class in 0..problem.classes() {
            if domains.allows(area, class) && self.is_cheaper(problem, area, class, best) {
                best = Some(class);
            }
        }
        match best {
            Some(class) => class,
            None => unreachable!(),
        }
    }

    // Whether a class has a lesser number than another one, or whether there is no other one.
    fn is_cheaper(&self, problem: &Problem, area: u32, class: u8, other: Option<u8>) -> bool
        requires area { area < areas problem.now }
        requires class { class < problem.now.classes }
        requires other { IsClass problem.now other }
        requires room { HasRoom problem.now (numbers_of self.now) }
        ensures { IsTrue result ↔ IsCheaper (number problem.now (numbers_of self.now) area) class other }
    {
        match other {
            None => true,
            Some(other) => self.choice(problem, area, class) < self.choice(problem, area, other),
        }
    }

    // How far the least number of the other classes that an area may have is above the number of a class, which is the least one and 0 or more.
    pub(crate) fn gap(&self, problem: &Problem, domains: &Domains, area: u32, class: u8) -> i128
        requires area { area < areas problem.now }
        requires class { class < problem.now.classes }
        requires room { HasRoom problem.now (numbers_of self.now) }
        requires domains { IsFor problem.now domains.now }
        requires low { pos 0 ≤ℤ number problem.now (numbers_of self.now) area class }
        requires least { (j : ℕ) → j < problem.now.classes → allows domains.now area j ≡ true → number problem.now (numbers_of self.now) area class ≤ℤ number problem.now (numbers_of self.now) area j }
        ensures { IsGap (allows domains.now area) (number problem.now (numbers_of self.now) area) problem.now.classes class result }
    {
        let least = self.choice(problem, area, class);
        let mut gap = MOST_UNITS;
        for other in 0..problem.classes() {
            if other != class && domains.allows(area, other) {
                gap = gap.min(self.choice(problem, area, other) - least);
            }
        }
        gap
    }
}
