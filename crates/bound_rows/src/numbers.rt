// A number for each choice and link: what it begins with, how entries of rows are taken from it, and what all add up to.
ghost use Rattle.std.specs.Prelude.{◌≡◌, ◌<◌, ◌≤◌, ◌+◌, ◌*◌, ◌^◌, ◌-ℤ◌, ◌*ℤ◌, ◌≤ℤ◌, ◌<ℤ◌, ◌==◌, ◌||◌, IfOk, ℕ, ℤ, [], ◌∷◌, length, true, false, IsTrue, slice_index_or, pos, Bool, unwrap_or};
ghost use Rattle.agg_model.specs.Problem.{Problem, IsProblem, areas, recolouring, length_of};
ghost use Rattle.row_laws.specs.declared.row.Row.TheVariants.{Border};
ghost use Rattle.row_laws.specs.Rows.{Place, Choice, Across, IsBorder, entries, near_end, far_end};
ghost use Rattle.row_laws.specs.Values.{RowSum, scale, start_at, bordering, least_below, lesser, with_class, over};
ghost use Rattle.row_laws.specs.Exact.{is_in_128, lower, run, add_up, area_term_at, link_term_at, with_links};
ghost use Rattle.bound_rows.specs.Scratch.{IsAt, IsRun, HasRoom, Numbers};
ghost use Rattle.std.specs.Int.{int_min};
ghost use Rattle.row_laws.specs.declared.bound.Entry.TheVariants.{TotalArea, TotalLink};
ghost use Rattle.bound_rows.specs.Domains.{allows, IsFor};
ghost use Rattle.bound_rows.specs.Escapes.{IsTaken, HasSeen, AreSoundMarks, counted, lesser_area};

use crate::{Domains, Entry};
use agg_base::NoMemory;
use agg_model::{Problem, recolour};
use std::alloc::Global;
use std::marker::Model;

/// One number for each choice, area by area, and one for each link.
#[derive(Drop)]
pub struct Numbers {
    pub(crate) choices: Vec<i128>,
    pub(crate) links: Vec<i128>,
}

impl Model for Numbers {
    ghost use Rattle.bound_rows.specs.Scratch.{Numbers};

    ghost Value = { Numbers };

    ghost view = { λ s. record { choices = s.choices.items; links = s.links.items } };
}

impl Numbers {
    // Numbers of a problem. Their values are not settled yet.
    pub(crate) fn new(alloc: Global, problem: &Problem) -> Result<Numbers, NoMemory>
        ensures { IfOk result (λ numbers. HasRoom problem.now numbers) }
    {
        let choices = problem.areas() as usize * problem.classes() as usize;
        Ok(Numbers {
            choices: vec![in alloc; 0i128; choices]?,
            links: vec![in alloc; 0i128; problem.link_count() as usize]?,
        })
    }

    // Takes an amount from a choice, or says that the number no longer fits.
    pub(crate) fn lower_choice(&mut self, classes: u8, area: u32, class: u8, amount: i128) -> bool
        requires class { class < classes }
        requires area { area * classes + class < length self.old.choices }
        ensures room { length self.new.choices ≡ length self.old.choices }
        ensures links { self.new.links ≡ self.old.links }
        ensures fits { (p : Problem) (f : Place → ℤ) → p.classes ≡ classes → area < areas p → IsAt p f self.old → result ≡ is_in_128 (f (Choice area class) -ℤ amount) }
        ensures none { result ≡ false → self.new ≡ self.old }
        ensures lowered { IsTrue result → (p : Problem) (f : Place → ℤ) → p.classes ≡ classes → area < areas p → IsAt p f self.old → IsAt p (lower f (Choice area class) amount) self.new }
    {
        let at = area as usize * classes as usize + class as usize;
        match self.choices[at].checked_sub(amount) {
            Some(number) => {
                self.choices[at] = number;
                true
            }
            None => false,
        }
    }

    // The same, for a problem: one step of a run.
    pub(crate) fn take_choice(
        &mut self,
        problem: &Problem,
        area: u32,
        class: u8,
        amount: i128,
    ) -> Result<(), Entry>
        requires area { area < areas problem.now }
        requires class { class < problem.now.classes }
        requires room { HasRoom problem.now self.old }
        ensures room { HasRoom problem.now self.new }
        ensures run { (f : Place → ℤ) → IsAt problem.now f self.old → IsRun problem.now (run f ((Choice area class, amount) ∷ [])) result self.new }
    {
        if self.lower_choice(problem.classes(), area, class, amount) {
            Ok(())
        } else {
            Err(Entry::Choice { area, class })
        }
    }

    // Takes an amount from a link's number: one step of a run.
    #[tactic(auto, unfolding(row_laws::specs::Exact::run))]
    pub(crate) fn take_link(
        &mut self,
        problem: &Problem,
        link: u32,
        amount: i128,
    ) -> Result<(), Entry>
        requires link { link < length problem.now.links }
        requires room { HasRoom problem.now self.old }
        ensures room { HasRoom problem.now self.new }
        ensures run { (f : Place → ℤ) → IsAt problem.now f self.old → IsRun problem.now (run f ((Across link, amount) ∷ [])) result self.new }
    {
        match self.links[link as usize].checked_sub(amount) {
            Some(number) => {
                self.links[link as usize] = number;
                Ok(())
            }
            None => Err(Entry::Across { link }),
        }
    }

    // The entries of a border row.
    pub(crate) fn take_border(
        &mut self,
        problem: &Problem,
        link: u32,
        side: u8,
        class: u8,
        multiplier: i128,
    ) -> Result<(), Entry>
        requires form { IsBorder problem.now link side class }
        requires sign { pos 0 ≤ℤ multiplier }
        requires room { HasRoom problem.now self.old }
        ensures room { HasRoom problem.now self.new }
        ensures run { (f : Place → ℤ) → IsAt problem.now f self.old → IsRun problem.now (run f (scale multiplier (entries problem.now (Border link side class)))) result self.new }
    {
        let first = near(problem, link, side);
        let second = near(problem, link, 1 - side);
        self.take_link(problem, link, multiplier)?;
        self.take_choice(problem, first, class, -multiplier)?;
        self.take_choice(problem, second, class, multiplier)
    }
}

// The end of a link that a side begins with.
fn near(problem: &Problem, link: u32, side: u8) -> u32
    requires link { link < length problem.now.links }
    ensures value { result ≡ near_end problem.now link side }
    ensures within { result < areas problem.now }
{
    let ends = problem.link(link);
    if side == 0 { ends.a } else { ends.b }
}

impl Numbers {
    // Takes an amount from a choice where it fits, and else keeps the area, where it is the least so far.
    pub(crate) fn take_one(
        &mut self,
        problem: &Problem,
        area: u32,
        class: u8,
        amount: i128,
        worst: Option<u32>,
    ) -> Option<u32>
        requires area { area < areas problem.now }
        requires class { class < problem.now.classes }
        requires room { HasRoom problem.now self.old }
        ensures room { HasRoom problem.now self.new }
        ensures taken { (f : Place → ℤ) (test more : ℕ → Bool) → test area ≡ false → ((v : ℕ) → v < areas problem.now → more v ≡ (v == area || test v)) → IsTaken problem.now f class amount test worst self.old → IsTaken problem.now f class amount more result self.new }
    {
        if self.lower_choice(problem.classes(), area, class, amount) {
            worst
        } else {
            Some(lesser_area(worst, area))
        }
    }
}

// The lesser of two areas, where there are two.
fn lesser_area(worst: Option<u32>, area: u32) -> u32
    ensures { result ≡ lesser_area worst area }
{
    match worst {
        None => area,
        Some(worst) => worst.min(area),
    }
}

impl Numbers {
    // The numbers that a sum begins with.
    pub(crate) fn start(&mut self, problem: &Problem, denominator: u32, void: bool)
        requires few { denominator ≤ 4096 }
        requires room { HasRoom problem.now self.old }
        ensures start { (s : RowSum) → s.denominator ≡ denominator → s.void ≡ void → IsAt problem.now (start_at problem.now s) self.new }
        ensures rules { IsProblem problem.now }
    {
        let factor = if void { 0 } else { denominator };
        for area in 0..problem.areas() {
            self.start_area(problem, area, factor);
        }
        for link in 0..problem.link_count() {
            self.links[link as usize] = times(bordering(problem, link), factor);
        }
    }

    // The numbers that the choices of one area begin with.
    fn start_area(&mut self, problem: &Problem, area: u32, factor: u32)
        requires rules { IsProblem problem.now }
        requires area { area < areas problem.now }
        requires few { factor ≤ 4096 }
        requires room { HasRoom problem.now self.old }
        ensures room { HasRoom problem.now self.new }
        ensures here { (k : ℕ) → k < problem.now.classes → slice_index_or self.new.choices (area * problem.now.classes + k) (pos 0) ≡ pos factor *ℤ recolouring problem.now area k }
        ensures before { (v k : ℕ) → v < area → k < problem.now.classes → slice_index_or self.new.choices (v * problem.now.classes + k) (pos 0) ≡ slice_index_or self.old.choices (v * problem.now.classes + k) (pos 0) }
    {
        for class in 0..problem.classes() {
            let at = area as usize * problem.classes() as usize + class as usize;
            self.choices[at] = times(recolour(problem, area, class), factor);
        }
    }
}

// What a link costs between regions.
fn bordering(problem: &Problem, link: u32) -> i128
    requires { link < length problem.now.links }
    ensures value { result ≡ bordering problem.now link }
    ensures least { pos 0 ≤ℤ result }
    ensures most { result <ℤ pos (2 ^ 111) }
{
    problem.link(link).length * i128::from(problem.border())
}

// A cost so many times.
fn times(cost: i128, factor: u32) -> i128
    requires least { pos 0 ≤ℤ cost }
    requires most { cost <ℤ pos (2 ^ 111) }
    requires few { factor ≤ 4096 }
    ensures { result ≡ pos factor *ℤ cost }
{
    cost * i128::from(factor)
}

impl Numbers {
    // The least number among an area's allowed classes.
    fn least(&self, problem: &Problem, domains: &Domains, area: u32) -> Option<i128>
        requires area { area < areas problem.now }
        requires room { HasRoom problem.now self.now }
        requires domains { IsFor problem.now domains.now }
        ensures { (f : Place → ℤ) → IsAt problem.now f self.now → result ≡ least_below (allows domains.now area) (λ k. f (Choice area k)) problem.now.classes }
    {
        let mut best = None;
        for class in 0..problem.classes() {
            best = self.better(problem, domains, area, class, best);
        }
        best
    }

    // The least number, with one more class.
    fn better(
        &self,
        problem: &Problem,
        domains: &Domains,
        area: u32,
        class: u8,
        best: Option<i128>,
    ) -> Option<i128>
        requires area { area < areas problem.now }
        requires class { class < problem.now.classes }
        requires few { class < 64 }
        requires room { HasRoom problem.now self.now }
        requires domains { IsFor problem.now domains.now }
        ensures { (f : Place → ℤ) → IsAt problem.now f self.now → result ≡ with_class (allows domains.now area) (λ k. f (Choice area k)) class best }
    {
        if domains.allows(area, class) {
            Some(lesser(best, self.choice(problem, area, class)))
        } else {
            best
        }
    }

    fn choice(&self, problem: &Problem, area: u32, class: u8) -> i128
        requires area { area < areas problem.now }
        requires class { class < problem.now.classes }
        requires room { HasRoom problem.now self.now }
        ensures { result ≡ slice_index_or self.now.choices (area * problem.now.classes + class) (pos 0) }
    {
        self.choices[area as usize * problem.classes() as usize + class as usize]
    }
}

fn lesser(best: Option<i128>, number: i128) -> i128
    ensures { result ≡ lesser best number }
{
    match best {
        None => number,
        Some(best) => best.min(number),
    }
}

impl Numbers {
    // The total, or the first sum that does not fit.
    pub(crate) fn total(&self, problem: &Problem, domains: &Domains) -> Result<i128, Entry>
        requires room { HasRoom problem.now self.now }
        requires domains { IsFor problem.now domains.now }
        ensures { (f : Place → ℤ) → IsAt problem.now f self.now → result ≡ with_links f (length problem.now.links) (add_up (λ v. TotalArea v) (area_term_at problem.now (allows domains.now) f) (pos 0) (areas problem.now)) }
    {
        let areas = self.area_total(problem, domains)?;
        self.link_total(problem, areas)
    }

    // The least numbers of the areas, added up.
    fn area_total(&self, problem: &Problem, domains: &Domains) -> Result<i128, Entry>
        requires room { HasRoom problem.now self.now }
        requires domains { IsFor problem.now domains.now }
        ensures { (f : Place → ℤ) → IsAt problem.now f self.now → result ≡ add_up (λ v. TotalArea v) (area_term_at problem.now (allows domains.now) f) (pos 0) (areas problem.now) }
    {
        let mut total = 0i128;
        for area in 0..problem.areas() {
            let least = self.least(problem, domains, area).unwrap_or(0);
            total = match total.checked_add(least) {
                Some(sum) => sum,
                None => return Err(Entry::TotalArea { area }),
            };
        }
        Ok(total)
    }

    // The lesser of 0 and the number of each link, added to a total.
    fn link_total(&self, problem: &Problem, areas: i128) -> Result<i128, Entry>
        requires room { HasRoom problem.now self.now }
        ensures { (f : Place → ℤ) → IsAt problem.now f self.now → result ≡ add_up (λ l. TotalLink l) (link_term_at f) areas (length problem.now.links) }
    {
        let mut total = areas;
        for link in 0..problem.link_count() {
            let number = self.links[link as usize].min(0);
            total = match total.checked_add(number) {
                Some(sum) => sum,
                None => return Err(Entry::TotalLink { link }),
            };
        }
        Ok(total)
    }
}

// A total over a denominator, rounded up.
pub(crate) fn round_up(total: i128, denominator: u32) -> i128
    requires above { 1 ≤ denominator }
    requires below { denominator ≤ 4096 }
    ensures { result ≡ over total denominator }
{
    let denominator = i128::from(denominator);
    if total > 0 {
        (total - 1) / denominator + 1
    } else {
        total / denominator
    }
}
