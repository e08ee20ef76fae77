// A climb, and how a row is taken.
ghost use Rattle.std.specs.Prelude.{◌≡◌, ◌≢◌, ◌<◌, ◌≤◌, ◌+◌, ◌-◌, ◌*◌, ◌^◌, ◌-ℤ◌, ◌+ℤ◌, ◌≤ℤ◌, ◌<ℤ◌, ◌↔◌, IsTrue, IfOk, ℕ, ℤ, true, false, length, pos, neg_ℤ, [], ◌∷◌, ◌++◌, FitsSigned};
ghost use Rattle.std.specs.Int.{w128};
ghost use Rattle.agg_model.specs.Problem.{Problem, IsProblem, areas};
ghost use Rattle.row_laws.specs.Rows.{Place, Choice, Across, near_end, far_end};
ghost use Rattle.row_laws.specs.Values.{RowSum};
ghost use Rattle.row_laws.specs.Exact.{lower};
ghost use Rattle.bound_rows.specs.Domains.{allows, IsFor};
ghost use Rattle.bound_rows.specs.Scratch.{HasRoom, IsAt};
ghost use Rattle.relax_bound.specs.Ascents.{IsFull};
ghost use Rattle.relax_bound.specs.Levels.{numbers_of, number, link_number, lowered_choice, lowered_link, AreTips, tip_at};
ghost use Rattle.relax_bound.specs.Leads.{AreLeads, beside, choices_of};
ghost use Rattle.relax_bound.specs.Climbs.{sum_of, IsState};

use crate::leads::{Leads, end_of};
use crate::left::Left;
use crate::levels::Levels;
use crate::starts::{least_sum, tips_of};
use agg_base::NoMemory;
use agg_model::Problem;
use bound_rows::{Domains, Row};
use std::alloc::Global;

// No more rows than these are taken for each area, and none where the total is this.
const ROWS_EACH: usize = 16;

const ENOUGH: i128 = 1 << 110;

// The most marks of a row.
const ROW_MARKS: u64 = 9;

// Rows that each give a greater total, what they leave, and how large they are.
#[derive(Drop)]
pub(crate) struct Climb {
    pub(crate) leads: Leads,
    pub(crate) levels: Levels,
    pub(crate) rows: Vec<(Row, i128)>,
    pub(crate) marks: u64,
    pub(crate) total: i128,
}

impl Climb {
    // The climb without rows.
    pub(crate) fn new(
        alloc: Global,
        problem: &Problem,
        domains: &Domains,
    ) -> Result<Climb, NoMemory>
        requires { IsFor problem.now domains.now }
        ensures { IfOk result (λ climb. (share : ℕ) → IsState problem.now (allows domains.now) share climb) }
    {
        let leads = Leads::new(alloc, problem)?;
        let left = Left::new(alloc, problem)?;
        let tips = tips_of(alloc, &left, problem, domains)?;
        let total = least_sum(&tips);
        Ok(Climb {
            leads,
            levels: Levels { left, tips },
            rows: Vec::new(alloc),
            marks: 0,
            total,
        })
    }

    // Whether there may be no row more, or the total is enough.
    pub(crate) fn is_full(&self, problem: &Problem, domains: &Domains, share: u64) -> bool
        requires { IsState problem.now (allows domains.now) share self.now }
        ensures { IsTrue result ↔ IsFull problem.now (allows domains.now) share (sum_of self.now.rows.items) }
    {
        self.rows.len() == ROWS_EACH * problem.areas() as usize
            || share - self.marks < ROW_MARKS
            || self.total >= ENOUGH
    }
}
