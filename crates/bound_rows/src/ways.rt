// The links of each area, to be walked without a search.
ghost use Rattle.std.specs.Prelude.{◌≡◌, ◌≢◌, ℕ, ◌<◌, ◌+◌, ◌-◌, ◌*◌, ◌%◌, IfOk, length, slice_index};
ghost use Rattle.agg_model.specs.Problem.{Problem, areas};
ghost use Rattle.bound_rows.specs.Scratch.{Ways, HasWays, AreWays, step_at, way_from, way_to};

use agg_base::NoMemory;
use agg_model::Problem;
use std::alloc::Global;
use std::marker::Model;

/// A way along a link: where it leads, and the way before it from the same area, as its number plus 1, or 0 where there is none.
#[derive(Clone, Copy)]
pub struct Step {
    pub(crate) before: u32,
    pub(crate) area: u32,
}

/// For each area its last way, as its number plus 1, or 0 where there is none. Each link is two ways, one from each end.
#[derive(Drop)]
pub struct Ways {
    lasts: Vec<u32>,
    steps: Vec<Step>,
}

impl Model for Ways {
    ghost use Rattle.bound_rows.specs.Scratch.{Ways};

    ghost Value = { Ways };

    ghost view = { λ w. record { lasts = w.lasts.items; steps = w.steps.items } };
}

impl Ways {
    // The ways of a problem.
    pub(crate) fn new(alloc: Global, problem: &Problem) -> Result<Ways, NoMemory>
        ensures { IfOk result (λ ways. AreWays problem.now ways) }
    {
        let mut ways = Ways::none(alloc, problem)?;
        for link in 0..problem.link_count() {
            let ends = problem.link(link);
            ways.add(problem, ends.a, ends.b)?;
            ways.add(problem, ends.b, ends.a)?;
        }
        Ok(ways)
    }

    // Areas without ways.
    fn none(alloc: Global, problem: &Problem) -> Result<Ways, NoMemory>
        ensures { IfOk result (λ ways. HasWays problem.now 0 ways) }
    {
        let lasts = vec![in alloc; 0u32; problem.areas() as usize]?;
        let steps = Vec::with_capacity(alloc, 2 * problem.link_count() as usize)?;
        Ok(Ways { lasts, steps })
    }

    // One way more.
    fn add(&mut self, problem: &Problem, from: u32, to: u32) -> Result<(), NoMemory>
        requires from { from < areas problem.now }
        requires few { length self.old.steps < 2097152 }
        requires ways { HasWays problem.now (length self.old.steps) self.old }
        requires is_from { from ≡ way_from problem.now (length self.old.steps) }
        requires is_to { to ≡ way_to problem.now (length self.old.steps) }
        ensures { IfOk result (λ _. HasWays problem.now (length self.old.steps + 1) self.new) }
    {
        let before = self.lasts[from as usize];
        self.steps.push(Step { before, area: to })?;
        self.lasts[from as usize] = self.steps.len() as u32;
        Ok(())
    }

    // The last way from an area.
    pub(crate) fn last(&self, area: u32) -> u32
        requires { area < length self.now.lasts }
        ensures { result ≡ slice_index self.now.lasts area }
    {
        self.lasts[area as usize]
    }

    // The way of a number plus 1.
    pub(crate) fn step(&self, lead: u32) -> Step
        requires some { lead ≢ 0 }
        requires there { lead - 1 < length self.now.steps }
        ensures { result ≡ step_at self.now (lead - 1) }
    {
        self.steps[lead as usize - 1]
    }
}
