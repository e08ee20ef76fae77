// What rows leave of each choice and link, with the tip of each area, and how a row is taken from it.
ghost use Rattle.std.specs.Prelude.{◌≡◌, ◌<◌, ◌≤◌, ◌+◌, ◌*◌, ◌^◌, ◌-ℤ◌, ◌+ℤ◌, ◌*ℤ◌, ◌≤ℤ◌, ◌<ℤ◌, ◌⊎◌, ℕ, ℤ, true, false, length, slice_set, pos, neg_ℤ, [], ◌∷◌};
ghost use Rattle.std.specs.Int.{int_min};
ghost use Rattle.agg_model.specs.Problem.{Problem, IsProblem, areas};
ghost use Rattle.row_laws.specs.declared.row.Row.TheVariants.{Border, Escape};
ghost use Rattle.row_laws.specs.Rows.{Place, Choice, near_end, far_end};
ghost use Rattle.row_laws.specs.Values.{amount_at};
ghost use Rattle.bound_rows.specs.Domains.{allows, IsFor};
ghost use Rattle.bound_rows.specs.Scratch.{HasRoom, IsAt, way_from, way_to};
ghost use Rattle.relax_bound.specs.Levels.{numbers_of, number, link_number, value_at, lowered_choice, lowered_link, AreTips, tip_at, drop_at, IsLeastOfThree, IsMet, coefficient, after_units};
ghost use Rattle.relax_bound.specs.Leads.{AreLeads, beside, choices_of};

use crate::leads::{Leads, end_of};
use crate::left::{Left, MOST_UNITS};
use crate::tips::Tip;
use agg_model::Problem;
use bound_rows::Domains;

// What is left of each choice and link, and the tip of each area over it.
#[derive(Drop)]
pub(crate) struct Levels {
    pub(crate) left: Left,
    pub(crate) tips: Vec<Tip>,
}

impl Levels {
    // The class of an area's tip.
    pub(crate) fn class(&self, area: u32) -> u8
        requires { area < length self.now.tips.items }
        ensures { result ≡ (tip_at self.now.tips.items area).class }
    {
        self.tips[area as usize].class
    }

    // The tip of an area.
    fn tip_at(&self, area: u32) -> Tip
        requires { area < length self.now.tips.items }
        ensures { result ≡ tip_at self.now.tips.items area }
    {
        self.tips[area as usize]
    }

    // Gives an area this tip.
    fn put_tip(&mut self, area: u32, tip: Tip)
        requires { area < length self.old.tips.items }
        ensures left { self.new.left ≡ self.old.left }
        ensures tips { self.new.tips.items ≡ slice_set self.old.tips.items area tip }
    {
        self.tips[area as usize] = tip;
    }

    // How far a choice may be lowered before it is less than the least number of its area. It is 2^111 where the area may not have the class.
    fn drop_at(&self, problem: &Problem, domains: &Domains, area: u32, class: u8) -> i128
        requires rules { IsProblem problem.now }
        requires area { area < areas problem.now }
        requires class { class < problem.now.classes }
        requires room { HasRoom problem.now (numbers_of self.now.left) }
        requires domains { IsFor problem.now domains.now }
        requires tips { AreTips problem.now (allows domains.now) (numbers_of self.now.left) self.now.tips.items }
        ensures value { result ≡ drop_at problem.now (allows domains.now) (numbers_of self.now.left) self.now.tips.items area class }
        ensures low { pos 0 ≤ℤ result }
    {
        if domains.allows(area, class) {
            self.left.choice(problem, area, class) - self.tip_at(area).least
        } else {
            MOST_UNITS
        }
    }

    // How many units the border row of a link and the class of the near end's tip may be taken.
    pub(crate) fn border_units(
        &self,
        problem: &Problem,
        domains: &Domains,
        link: u32,
        side: u8,
        near: u32,
        far: u32,
    ) -> i128
        requires rules { IsProblem problem.now }
        requires link { link < length problem.now.links }
        requires near { near ≡ near_end problem.now link side }
        requires far { far ≡ far_end problem.now link side }
        requires within { (near < areas problem.now) × (far < areas problem.now) }
        requires room { HasRoom problem.now (numbers_of self.now.left) }
        requires domains { IsFor problem.now domains.now }
        requires tips { AreTips problem.now (allows domains.now) (numbers_of self.now.left) self.now.tips.items }
        requires across { pos 0 ≤ℤ link_number (numbers_of self.now.left) link }
        ensures low { pos 0 ≤ℤ result }
        ensures least { IsLeastOfThree problem.now (allows domains.now) (numbers_of self.now.left) self.now.tips.items link side result }
    {
        let tip = self.tip_at(near);
        let drop = self.drop_at(problem, domains, far, tip.class);
        tip.gap.min(self.left.link(link)).min(drop)
    }

    // How many units the escape row of an area alone and the class of its tip may be taken.
    pub(crate) fn escape_units(
        &self,
        leads: &Leads,
        problem: &Problem,
        domains: &Domains,
        area: u32,
    ) -> i128
        requires rules { IsProblem problem.now }
        requires leads { AreLeads problem.now leads.now }
        requires area { area < areas problem.now }
        requires room { HasRoom problem.now (numbers_of self.now.left) }
        requires domains { IsFor problem.now domains.now }
        requires tips { AreTips problem.now (allows domains.now) (numbers_of self.now.left) self.now.tips.items }
        ensures low { pos 0 ≤ℤ result }
        ensures met { IsMet problem.now (allows domains.now) (numbers_of self.now.left) self.now.tips.items area result }
    {
        let tip = self.tip_at(area);
        let mut units = tip.gap;
        let mut lead = leads.last(area);
        while lead != 0 {
            let drop = self.drop_at(problem, domains, end_of(problem, lead), tip.class);
            units = units.min(drop);
            lead = leads.before(lead);
        }
        units
    }

    // Takes the border row of a link and the class of the near end's tip.
    pub(crate) fn take_border(
        &mut self,
        problem: &Problem,
        domains: &Domains,
        link: u32,
        side: u8,
        near: u32,
        far: u32,
        units: i128,
    )
        requires rules { IsProblem problem.now }
        requires link { link < length problem.now.links }
        requires side { side ≤ 1 }
        requires near { near ≡ near_end problem.now link side }
        requires far { far ≡ far_end problem.now link side }
        requires within { (near < areas problem.now) × (far < areas problem.now) }
        requires room { HasRoom problem.now (numbers_of self.old.left) }
        requires domains { IsFor problem.now domains.now }
        requires tips { AreTips problem.now (allows domains.now) (numbers_of self.old.left) self.old.tips.items }
        requires some { pos 1 ≤ℤ units }
        requires least { IsLeastOfThree problem.now (allows domains.now) (numbers_of self.old.left) self.old.tips.items link side units }
        requires high { (v k : ℕ) → v < areas problem.now → k < problem.now.classes → number problem.now (numbers_of self.old.left) v k ≤ℤ pos (2 ^ 114) }
        requires low { (v k : ℕ) → v < areas problem.now → k < problem.now.classes → neg_ℤ (pos (2 ^ 114)) ≤ℤ number problem.now (numbers_of self.old.left) v k }
        ensures numbers { IsAt problem.now (after_units (value_at problem.now (numbers_of self.old.left)) (coefficient problem.now (Border link side (tip_at self.old.tips.items (near_end problem.now link side)).class)) units) (numbers_of self.new.left) }
        ensures tips { AreTips problem.now (allows domains.now) (numbers_of self.new.left) self.new.tips.items }
    {
        let class = self.class(near);
        self.left.lower_link(link, units);
        self.raise(problem, domains, near, units);
        self.lean(problem, domains, far, class, units);
    }

    // Takes the escape row of an area alone and the class of its tip.
    pub(crate) fn take_escape(
        &mut self,
        leads: &Leads,
        problem: &Problem,
        domains: &Domains,
        area: u32,
        units: i128,
    )
        requires rules { IsProblem problem.now }
        requires leads { AreLeads problem.now leads.now }
        requires area { area < areas problem.now }
        requires room { HasRoom problem.now (numbers_of self.old.left) }
        requires domains { IsFor problem.now domains.now }
        requires tips { AreTips problem.now (allows domains.now) (numbers_of self.old.left) self.old.tips.items }
        requires some { pos 1 ≤ℤ units }
        requires most { IsMet problem.now (allows domains.now) (numbers_of self.old.left) self.old.tips.items area units }
        requires high { (v k : ℕ) → v < areas problem.now → k < problem.now.classes → number problem.now (numbers_of self.old.left) v k ≤ℤ pos (2 ^ 114) }
        requires low { (v k : ℕ) → v < areas problem.now → k < problem.now.classes → neg_ℤ (pos (2 ^ 114)) ≤ℤ number problem.now (numbers_of self.old.left) v k }
        ensures numbers { IsAt problem.now (after_units (value_at problem.now (numbers_of self.old.left)) (coefficient problem.now (Escape area (tip_at self.old.tips.items area).class (area ∷ []))) units) (numbers_of self.new.left) }
        ensures tips { AreTips problem.now (allows domains.now) (numbers_of self.new.left) self.new.tips.items }
    {
        let class = self.class(area);
        self.raise(problem, domains, area, units);
        self.lean_beside(leads, problem, domains, area, class, units);
    }

    // Raises the least number of an area, by no more than the gap above it.
    fn raise(&mut self, problem: &Problem, domains: &Domains, area: u32, units: i128)
        requires area { area < areas problem.now }
        requires room { HasRoom problem.now (numbers_of self.old.left) }
        requires domains { IsFor problem.now domains.now }
        requires tips { AreTips problem.now (allows domains.now) (numbers_of self.old.left) self.old.tips.items }
        requires low { pos 0 ≤ℤ units }
        requires gap { units ≤ℤ (tip_at self.old.tips.items area).gap }
        requires most { (tip_at self.old.tips.items area).least ≤ℤ pos (2 ^ 114) }
        ensures numbers { numbers_of self.new.left ≡ lowered_choice problem.now (numbers_of self.old.left) area (tip_at self.old.tips.items area).class (neg_ℤ units) }
        ensures tips { AreTips problem.now (allows domains.now) (numbers_of self.new.left) self.new.tips.items }
        ensures others { (v : ℕ) → (v ≡ area → ⊥) → tip_at self.new.tips.items v ≡ tip_at self.old.tips.items v }
    {
        let tip = self.tip_at(area);
        self.left.lower_choice(problem, area, tip.class, -units);
        let gap = self.left.gap(problem, domains, area, tip.class);
        let least = tip.least + units;
        self.put_tip(
            area,
            Tip {
                class: tip.class,
                least,
                gap,
            },
        );
    }

    // Lowers a choice that stays no less than the least number of its area.
    fn lean(&mut self, problem: &Problem, domains: &Domains, area: u32, class: u8, units: i128)
        requires rules { IsProblem problem.now }
        requires area { area < areas problem.now }
        requires class { class < problem.now.classes }
        requires room { HasRoom problem.now (numbers_of self.old.left) }
        requires domains { IsFor problem.now domains.now }
        requires tips { AreTips problem.now (allows domains.now) (numbers_of self.old.left) self.old.tips.items }
        requires some { pos 1 ≤ℤ units }
        requires most { units ≤ℤ pos (2 ^ 111) }
        requires drop { allows domains.now area class ≡ true → units ≤ℤ (number problem.now (numbers_of self.old.left) area class -ℤ (tip_at self.old.tips.items area).least) }
        requires low { neg_ℤ (pos (2 ^ 115)) ≤ℤ (number problem.now (numbers_of self.old.left) area class -ℤ units) }
        ensures numbers { numbers_of self.new.left ≡ lowered_choice problem.now (numbers_of self.old.left) area class units }
        ensures tips { AreTips problem.now (allows domains.now) (numbers_of self.new.left) self.new.tips.items }
        ensures least { (v : ℕ) → (tip_at self.new.tips.items v).least ≡ (tip_at self.old.tips.items v).least }
    {
        self.left.lower_choice(problem, area, class, units);
        if domains.allows(area, class) {
            let tip = self.tip_at(area);
            let above = self.left.choice(problem, area, class) - tip.least;
            self.put_tip(
                area,
                Tip {
                    class: tip.class,
                    least: tip.least,
                    gap: tip.gap.min(above),
                },
            );
        }
    }

    // Lowers the choices of a class of all areas that an area is linked to, which stay no less than the least numbers of their areas.
    fn lean_beside(
        &mut self,
        leads: &Leads,
        problem: &Problem,
        domains: &Domains,
        area: u32,
        class: u8,
        units: i128,
    )
        requires rules { IsProblem problem.now }
        requires leads { AreLeads problem.now leads.now }
        requires area { area < areas problem.now }
        requires class { class < problem.now.classes }
        requires room { HasRoom problem.now (numbers_of self.old.left) }
        requires domains { IsFor problem.now domains.now }
        requires tips { AreTips problem.now (allows domains.now) (numbers_of self.old.left) self.old.tips.items }
        requires some { pos 1 ≤ℤ units }
        requires most { units ≤ℤ pos (2 ^ 111) }
        requires drops { (h : ℕ) → h < 2 * length problem.now.links → way_from problem.now h ≡ area → allows domains.now (way_to problem.now h) class ≡ true → units ≤ℤ (number problem.now (numbers_of self.old.left) (way_to problem.now h) class -ℤ (tip_at self.old.tips.items (way_to problem.now h)).least) }
        requires low { (v : ℕ) → v < areas problem.now → neg_ℤ (pos (2 ^ 114)) ≤ℤ number problem.now (numbers_of self.old.left) v class }
        ensures numbers { IsAt problem.now (λ at. value_at problem.now (numbers_of self.old.left) at -ℤ amount_at (choices_of class units (beside problem.now area (2 * length problem.now.links))) at) (numbers_of self.new.left) }
        ensures tips { AreTips problem.now (allows domains.now) (numbers_of self.new.left) self.new.tips.items }
    {
        let mut lead = leads.last(area);
        while lead != 0 {
            self.lean(problem, domains, end_of(problem, lead), class, units);
            lead = leads.before(lead);
        }
    }
}
