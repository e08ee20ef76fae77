// The links of each area, to be walked without a search.
ghost use Rattle.std.specs.Prelude.{◌≡◌, ◌≢◌, ◌<◌, ◌+◌, ◌-◌, ◌*◌, IfOk, length, slice_index};
ghost use Rattle.agg_model.specs.Problem.{Problem, IsProblem, areas};
ghost use Rattle.bound_rows.specs.Scratch.{way_from, way_to};
ghost use Rattle.relax_bound.specs.Leads.{HasLeads, AreLeads};

use agg_base::NoMemory;
use agg_model::Problem;
use std::alloc::Global;

// Each link is two ways: way 2 l leads from the lesser area of link l to the greater one, way 2 l + 1 back. Each area has a lead to its last way,
// and each way one to the way before it from the same area. A lead is the way's number plus 1, and 0 where there is none.
#[derive(Drop)]
pub(crate) struct Leads {
    pub(crate) lasts: Vec<u32>,
    pub(crate) befores: Vec<u32>,
}

impl Leads {
    // The leads of a problem.
    pub(crate) fn new(alloc: Global, problem: &Problem) -> Result<Leads, NoMemory>
        ensures leads { IfOk result (λ leads. AreLeads problem.now leads) }
        ensures rules { IfOk result (λ _. IsProblem problem.now) }
    {
        let mut leads = Leads::none(alloc, problem)?;
        for link in 0..problem.link_count() {
            let ends = problem.link(link);
            leads.add(problem, ends.a)?;
            leads.add(problem, ends.b)?;
        }
        Ok(leads)
    }

    // Areas without ways.
    fn none(alloc: Global, problem: &Problem) -> Result<Leads, NoMemory>
        ensures { IfOk result (λ leads. HasLeads problem.now 0 leads.lasts.items leads.befores.items) }
    {
        let lasts = vec![in alloc; 0u32; problem.areas() as usize]?;
        let befores = Vec::with_capacity(alloc, 2 * problem.link_count() as usize)?;
        Ok(Leads { lasts, befores })
    }

    // One way more.
    fn add(&mut self, problem: &Problem, from: u32) -> Result<(), NoMemory>
        requires from { from < areas problem.now }
        requires few { length self.old.befores.items < 2097152 }
        requires leads { HasLeads problem.now (length self.old.befores.items) self.old.lasts.items self.old.befores.items }
        requires is_from { from ≡ way_from problem.now (length self.old.befores.items) }
        ensures { IfOk result (λ _. HasLeads problem.now (length self.old.befores.items + 1) self.new.lasts.items self.new.befores.items) }
    {
        self.befores.push(self.lasts[from as usize])?;
        self.lasts[from as usize] = self.befores.len() as u32;
        Ok(())
    }

    // The lead to the last way from an area.
    pub(crate) fn last(&self, area: u32) -> u32
        requires { area < length self.now.lasts.items }
        ensures { result ≡ slice_index self.now.lasts.items area }
    {
        self.lasts[area as usize]
    }

    // The lead before another one.
    pub(crate) fn before(&self, lead: u32) -> u32
        requires some { lead ≢ 0 }
        requires there { lead - 1 < length self.now.befores.items }
        ensures { result ≡ slice_index self.now.befores.items (lead - 1) }
    {
        self.befores[lead as usize - 1]
    }
}

// The area that a lead's way leads to.
pub(crate) fn end_of(problem: &Problem, lead: u32) -> u32
    requires some { lead ≢ 0 }
    requires there { lead - 1 < 2 * length problem.now.links }
    ensures value { result ≡ way_to problem.now (lead - 1) }
    ensures within { result < areas problem.now }
{
    let way = lead - 1;
    let ends = problem.link(way / 2);
    if way % 2 == 0 { ends.b } else { ends.a }
}
