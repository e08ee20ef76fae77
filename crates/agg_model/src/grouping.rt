use crate::Problem;
use crate::rules::are_below;
use agg_base::NoMemory;
use agg_base::limits::AREAS;
use std::alloc::Global;
use std::marker::Model;

/// A region for each area, and a class for each region. Whether it fits a problem is what `numbered` tests.
#[derive(Drop)]
pub struct Grouping {
    /// The region of each area.
    pub region_of: Vec<u32>,
    /// The class of each region.
    pub class_of: Vec<u8>,
}

impl Model for Grouping {
    ghost use Rattle.agg_model.specs.Problem.{Grouping};

    ghost Value = { Grouping };

    ghost view = { λ g. record { region_of = g.region_of.items; class_of = g.class_of.items } };
}

ghost use Rattle.std.specs.Prelude.{◌≡◌, ◌↔◌, ◌<◌, ◌≤◌, IsTrue, IfOk, EachIndex, length, slice_index};
ghost use Rattle.agg_model.specs.Problem.{IsNumbered, region, class_in, class_at};

impl Grouping {
    /// The same grouping again. Its one refusal is want of memory.
    pub fn copy(&self, alloc: Global) -> Result<Grouping, NoMemory>
        ensures { IfOk result (λ grouping. grouping ≡ self.now) }
    {
        Ok(Grouping {
            region_of: Vec::from_slice(alloc, &self.region_of)?,
            class_of: Vec::from_slice(alloc, &self.class_of)?,
        })
    }

    /// The region of an area.
    pub fn region(&self, area: u32) -> u32
        requires { area < length self.now.region_of }
        ensures { result ≡ region self.now area }
    {
        self.region_of[area as usize]
    }

    /// How many regions there are.
    pub fn regions(&self) -> u32
        requires { length self.now.class_of ≤ AREAS }
        ensures { result ≡ length self.now.class_of }
    {
        self.class_of.len() as u32
    }

    /// The class of a region.
    pub fn class(&self, region: u32) -> u8
        requires { region < length self.now.class_of }
        ensures { result ≡ class_in self.now region }
    {
        self.class_of[region as usize]
    }

    /// The class of the region of an area.
    pub fn class_at(&self, area: u32) -> u8
        requires area { area < length self.now.region_of }
        requires region { region self.now area < length self.now.class_of }
        ensures { result ≡ class_at self.now area }
    {
        self.class(self.region(area))
    }
}

/// Whether the grouping fits the problem: it has one region for each area, each of them is below the number of regions, there are at most
/// 65,536 regions, and each region has a class of the problem. It takes no memory.
pub fn numbered(problem: &Problem, grouping: &Grouping) -> bool
    ensures { IsTrue result ↔ IsNumbered problem.now grouping.now }
{
    let areas = problem.areas() as usize;
    let regions = grouping.class_of.len();
    if grouping.region_of.len() != areas || regions > AREAS {
        return false;
    }
    let classes = problem.classes();
    are_regions_below(&grouping.region_of, regions) && are_below(&grouping.class_of, classes)
}

// Whether all regions are below the number of regions.
fn are_regions_below(region_of: &[u32], regions: usize) -> bool
    ensures { IsTrue result
        ↔ EachIndex region_of.now (λ v. slice_index region_of.now v < regions) }
{
    region_of.iter().all(|region| (*region as usize) < regions)
}
