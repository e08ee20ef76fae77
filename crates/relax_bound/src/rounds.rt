// Rounds over all short rows, until one finds no row that gives a greater total.
ghost use Rattle.std.specs.Prelude.{◌≡◌, ◌<◌, ◌≤◌, ◌≤ℤ◌, ◌+ℤ◌, ◌<ℤ◌, ◌*◌, ◌+◌, ◌^◌, IfOk, ℕ, ℤ, length, pos, [], ◌∷◌, ◌++◌, ◌↔◌, IsTrue};
ghost use Rattle.agg_model.specs.Problem.{Problem, areas};
ghost use Rattle.row_laws.specs.declared.row.Row.{Row};
ghost use Rattle.row_laws.specs.declared.row.Row.TheVariants.{Border, Escape};
ghost use Rattle.row_laws.specs.Rows.{IsEscape, near_end, far_end};
ghost use Rattle.row_laws.specs.Values.{row_marks};
ghost use Rattle.bound_rows.specs.Domains.{allows, IsFor};
ghost use Rattle.relax_bound.specs.Ascents.{IsVain, IsShort, IsEnded};
ghost use Rattle.relax_bound.specs.Climbs.{sum_of, IsState, IsStep, IsSpent, IsVainLink, AreVainBorders, AreVainEscapes};

use crate::climb::Climb;
use agg_base::NoMemory;
use agg_model::Problem;
use bound_rows::{Domains, Row, Set};
use std::alloc::Global;

impl Climb {
    // Takes rows until there may be none more, or none gives a greater total.
    pub(crate) fn rise(
        &mut self,
        alloc: Global,
        problem: &Problem,
        domains: &Domains,
        share: u64,
    ) -> Result<(), NoMemory>
        requires domains { IsFor problem.now domains.now }
        requires state { IsState problem.now (allows domains.now) share self.old }
        ensures state { IfOk result (λ _. IsState problem.now (allows domains.now) share self.new) }
        ensures ended { IfOk result (λ _. IsEnded problem.now (allows domains.now) share (sum_of self.new.rows.items)) }
    {
        let mut is_growing = true;
        while is_growing {
            is_growing = self.round(alloc, problem, domains, share)?;
        }
        Ok(())
    }

    // Looks at each short row once, and says whether one was taken.
    fn round(
        &mut self,
        alloc: Global,
        problem: &Problem,
        domains: &Domains,
        share: u64,
    ) -> Result<bool, NoMemory>
        requires domains { IsFor problem.now domains.now }
        requires state { IsState problem.now (allows domains.now) share self.old }
        ensures state { IfOk result (λ _. IsState problem.now (allows domains.now) share self.new) }
        ensures step { IfOk result (λ grown. IsStep self.old.rows.items self.new.rows.items grown (IsEnded problem.now (allows domains.now) share (sum_of self.old.rows.items))) }
    {
        let has_escape = self.take_escapes(alloc, problem, domains, share)?;
        let has_border = self.take_borders(problem, domains, share)?;
        Ok(has_escape || has_border)
    }

    // Looks at the escape row of each area alone.
    fn take_escapes(
        &mut self,
        alloc: Global,
        problem: &Problem,
        domains: &Domains,
        share: u64,
    ) -> Result<bool, NoMemory>
        requires domains { IsFor problem.now domains.now }
        requires state { IsState problem.now (allows domains.now) share self.old }
        ensures state { IfOk result (λ _. IsState problem.now (allows domains.now) share self.new) }
        ensures step { IfOk result (λ grown. IsStep self.old.rows.items self.new.rows.items grown (IsSpent problem.now (allows domains.now) share self.old.rows.items (AreVainEscapes problem.now (allows domains.now) self.old.rows.items (areas problem.now)))) }
    {
        let mut has_grown = false;
        for area in 0..problem.areas() {
            let is_taken = self.visit_escape(alloc, problem, domains, share, area)?;
            has_grown = has_grown || is_taken;
        }
        Ok(has_grown)
    }

    // Looks at the border rows of each link.
    fn take_borders(
        &mut self,
        problem: &Problem,
        domains: &Domains,
        share: u64,
    ) -> Result<bool, NoMemory>
        requires domains { IsFor problem.now domains.now }
        requires state { IsState problem.now (allows domains.now) share self.old }
        ensures state { IfOk result (λ _. IsState problem.now (allows domains.now) share self.new) }
        ensures step { IfOk result (λ grown. IsStep self.old.rows.items self.new.rows.items grown (IsSpent problem.now (allows domains.now) share self.old.rows.items (AreVainBorders problem.now (allows domains.now) self.old.rows.items (length problem.now.links)))) }
    {
        let mut has_grown = false;
        for link in 0..problem.link_count() {
            let is_taken = self.visit_link(problem, domains, share, link)?;
            has_grown = has_grown || is_taken;
        }
        Ok(has_grown)
    }

    // Looks at the border rows of one link.
    fn visit_link(
        &mut self,
        problem: &Problem,
        domains: &Domains,
        share: u64,
        link: u32,
    ) -> Result<bool, NoMemory>
        requires link { link < length problem.now.links }
        requires domains { IsFor problem.now domains.now }
        requires state { IsState problem.now (allows domains.now) share self.old }
        ensures state { IfOk result (λ _. IsState problem.now (allows domains.now) share self.new) }
        ensures step { IfOk result (λ grown. IsStep self.old.rows.items self.new.rows.items grown (IsSpent problem.now (allows domains.now) share self.old.rows.items (IsVainLink problem.now (allows domains.now) self.old.rows.items link))) }
    {
        let first = self.visit_border(problem, domains, share, link, 0)?;
        let second = self.visit_border(problem, domains, share, link, 1)?;
        Ok(first || second)
    }
}
