// One look at a border row, or at an escape row of an area alone.
ghost use Rattle.std.specs.Prelude.{◌≡◌, ◌<◌, ◌≤◌, ◌≤ℤ◌, ◌+ℤ◌, ◌-ℤ◌, ◌<ℤ◌, ◌*◌, ◌+◌, ◌^◌, IfOk, ℕ, ℤ, length, pos, [], ◌∷◌, ◌++◌, ◌↔◌, IsTrue};
ghost use Rattle.agg_model.specs.Problem.{Problem, areas};
ghost use Rattle.row_laws.specs.declared.row.Row.TheVariants.{Border, Escape};
ghost use Rattle.row_laws.specs.Rows.{IsEscape, near_end, far_end};
ghost use Rattle.bound_rows.specs.Domains.{allows, IsFor};
ghost use Rattle.bound_rows.specs.Scratch.{way_from, way_to};
ghost use Rattle.relax_bound.specs.Ascents.{IsFull};
ghost use Rattle.relax_bound.specs.Levels.{numbers_of, tip_at, IsLeastOfThree, IsMet};
ghost use Rattle.relax_bound.specs.Climbs.{sum_of, IsState, IsStep, IsSpent, AreVainSides, AreVainAlone};

use crate::climb::Climb;
use agg_base::NoMemory;
use agg_model::Problem;
use bound_rows::{Domains, Row, Set};
use std::alloc::Global;

impl Climb {
    // Takes the border row of a link, a side and whatever class, where one gives a greater total, and says whether one was taken.
    pub(crate) fn visit_border(
        &mut self,
        problem: &Problem,
        domains: &Domains,
        share: u64,
        link: u32,
        side: u8,
    ) -> Result<bool, NoMemory>
        requires link { link < length problem.now.links }
        requires side { side ≤ 1 }
        requires domains { IsFor problem.now domains.now }
        requires state { IsState problem.now (allows domains.now) share self.old }
        ensures state { IfOk result (λ _. IsState problem.now (allows domains.now) share self.new) }
        ensures step { IfOk result (λ grown. IsStep self.old.rows.items self.new.rows.items grown (IsSpent problem.now (allows domains.now) share self.old.rows.items (AreVainSides problem.now (allows domains.now) self.old.rows.items link side))) }
    {
        if self.is_full(problem, domains, share) {
            return Ok(false);
        }
        let near = end_at(problem, link, side);
        let far = other_end_at(problem, link, side);
        let units = self
            .levels
            .border_units(problem, domains, link, side, near, far);
        if units < 1 {
            return Ok(false);
        }
        self.add_border(problem, domains, share, link, side, units)?;
        Ok(true)
    }

    // Takes so many units of the border row of a link, a side and the class of the near end's tip.
    fn add_border(
        &mut self,
        problem: &Problem,
        domains: &Domains,
        share: u64,
        link: u32,
        side: u8,
        units: i128,
    ) -> Result<(), NoMemory>
        requires link { link < length problem.now.links }
        requires side { side ≤ 1 }
        requires domains { IsFor problem.now domains.now }
        requires state { IsState problem.now (allows domains.now) share self.old }
        requires room { ¬ IsFull problem.now (allows domains.now) share (sum_of self.old.rows.items) }
        requires some { pos 1 ≤ℤ units }
        requires least { IsLeastOfThree problem.now (allows domains.now) (numbers_of self.old.levels.left) self.old.levels.tips.items link side units }
        ensures state { IfOk result (λ _. IsState problem.now (allows domains.now) share self.new) }
        ensures more { IfOk result (λ _. length self.old.rows.items < length self.new.rows.items) }
    {
        let near = end_at(problem, link, side);
        let far = other_end_at(problem, link, side);
        let class = self.levels.class(near);
        self.levels
            .take_border(problem, domains, link, side, near, far, units);
        self.push(Row::Border { link, side, class }, units, 8)?;
        Ok(())
    }

    // Takes the escape row of an area alone and whatever class, where one gives a greater total, and says whether one was taken.
    pub(crate) fn visit_escape(
        &mut self,
        alloc: Global,
        problem: &Problem,
        domains: &Domains,
        share: u64,
        area: u32,
    ) -> Result<bool, NoMemory>
        requires area { area < areas problem.now }
        requires domains { IsFor problem.now domains.now }
        requires state { IsState problem.now (allows domains.now) share self.old }
        ensures state { IfOk result (λ _. IsState problem.now (allows domains.now) share self.new) }
        ensures step { IfOk result (λ grown. IsStep self.old.rows.items self.new.rows.items grown (IsSpent problem.now (allows domains.now) share self.old.rows.items (AreVainAlone problem.now (allows domains.now) self.old.rows.items area))) }
    {
        if self.is_full(problem, domains, share) {
            return Ok(false);
        }
        let class = self.levels.class(area);
        if !is_escape(problem, area, class) {
            return Ok(false);
        }
        let units = self
            .levels
            .escape_units(&self.leads, problem, domains, area);
        if units < 1 {
            return Ok(false);
        }
        self.add_escape(alloc, problem, domains, share, area, units)?;
        Ok(true)
    }

    // Takes so many units of the escape row of an area alone and the class of its tip.
    fn add_escape(
        &mut self,
        alloc: Global,
        problem: &Problem,
        domains: &Domains,
        share: u64,
        area: u32,
        units: i128,
    ) -> Result<(), NoMemory>
        requires area { area < areas problem.now }
        requires domains { IsFor problem.now domains.now }
        requires state { IsState problem.now (allows domains.now) share self.old }
        requires room { ¬ IsFull problem.now (allows domains.now) share (sum_of self.old.rows.items) }
        requires form { IsEscape problem.now area (tip_at self.old.levels.tips.items area).class (area ∷ []) }
        requires some { pos 1 ≤ℤ units }
        requires most { IsMet problem.now (allows domains.now) (numbers_of self.old.levels.left) self.old.levels.tips.items area units }
        ensures state { IfOk result (λ _. IsState problem.now (allows domains.now) share self.new) }
        ensures more { IfOk result (λ _. length self.old.rows.items < length self.new.rows.items) }
    {
        let class = self.levels.class(area);
        self.levels
            .take_escape(&self.leads, problem, domains, area, units);
        let set = alone(alloc, area)?;
        self.push(Row::Escape { area, class, set }, units, 9)?;
        Ok(())
    }

    // One row more.
    fn push(&mut self, row: Row, units: i128, marks: u64) -> Result<(), NoMemory>
        requires total { pos 0 ≤ℤ self.old.total }
        requires units { pos 0 ≤ℤ units }
        requires most { (self.old.total +ℤ units) ≤ℤ pos (2 ^ 112) }
        requires marks { self.old.marks + marks < 2 ^ 64 }
        ensures leads { self.new.leads ≡ self.old.leads }
        ensures levels { self.new.levels ≡ self.old.levels }
        ensures rows { IfOk result (λ _. self.new.rows.items ≡ self.old.rows.items ++ (row, units) ∷ []) }
        ensures total { IfOk result (λ _. self.new.total ≡ self.old.total +ℤ units) }
        ensures count { IfOk result (λ _. self.new.marks ≡ self.old.marks + marks) }
    {
        self.rows.push((row, units))?;
        self.total += units;
        self.marks += marks;
        Ok(())
    }
}

// The end of a link that a side begins with.
fn end_at(problem: &Problem, link: u32, side: u8) -> u32
    requires link { link < length problem.now.links }
    ensures value { result ≡ near_end problem.now link side }
    ensures within { result < areas problem.now }
{
    let ends = problem.link(link);
    if side == 0 { ends.a } else { ends.b }
}

// The other end of the link.
fn other_end_at(problem: &Problem, link: u32, side: u8) -> u32
    requires link { link < length problem.now.links }
    ensures value { result ≡ far_end problem.now link side }
    ensures within { result < areas problem.now }
{
    let ends = problem.link(link);
    if side == 0 { ends.b } else { ends.a }
}

// Whether the escape row of an area alone and a class is in form.
fn is_escape(problem: &Problem, area: u32, class: u8) -> bool
    requires area { area < areas problem.now }
    requires class { class < problem.now.classes }
    ensures { IsTrue result ↔ IsEscape problem.now area class (area ∷ []) }
{
    problem.own(area) != class || problem.weight(area) < problem.threshold(class)
}

// The set of an area alone.
fn alone(alloc: Global, area: u32) -> Result<Set, NoMemory>
    ensures { IfOk result (λ set. set ≡ area ∷ []) }
{
    match Set::of(vec![in alloc; area]?) {
        Some(set) => Ok(set),
        None => unreachable!(),
    }
}
