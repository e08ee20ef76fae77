// Areas.
use crate::edge::Edge;
use agg_base::Text;
use std::marker::Model;

/// A class text and a list of steps. Each point is an end of an even number of the steps.
#[derive(Drop)]
pub struct Area {
    class: Text,
    steps: Vec<Edge>,
}

impl Model for Area {
    ghost use Rattle.plane_edge.specs.Rings.{Area};

    ghost Value = { Area };

    ghost use Rattle.plane_edge.specs.Edges.{HaveEvenEnds};

    ghost view = { λ a. record { class = a.class; steps = a.steps.items } };

    ghost invariant = { λ a. HaveEvenEnds a.steps.items };
}

ghost use Rattle.std.specs.Prelude.{◌≡◌, map, flat_map, IfOk};
ghost use Rattle.plane_edge.specs.Edges.{HaveEvenEnds};
ghost use Rattle.plane_edge.specs.Rings.{ends_of, steps_of_ring};

use crate::point::Point;
use crate::rings::steps_of_rings;
use agg_base::NoMemory;
use std::alloc::Global;

impl Area {
    /// The area of some rings. Each ring is a cyclic list of points; its steps are those of non-zero
    /// length from each point to the next, and from the last back to the first. Its one refusal is
    /// want of memory.
    pub fn of_rings(alloc: Global, class: Text, rings: &[Vec<Point>]) -> Result<Area, NoMemory>
        ensures class { IfOk result (λ area. area.class ≡ class) }
        ensures steps { IfOk result (λ area. map ends_of area.steps ≡ flat_map (λ ring. steps_of_ring ring.items) rings.now) }
    {
        let steps = steps_of_rings(alloc, rings)?;
        Ok(Area { class, steps })
    }

    /// The class text.
    pub fn class(&self) -> &Text
        ensures { result.now ≡ self.now.class }
    {
        &self.class
    }

    /// The steps, ring by ring.
    pub fn steps(&self) -> &[Edge]
        ensures value { result.now ≡ self.now.steps }
        ensures even { HaveEvenEnds self.now.steps }
    {
        &self.steps
    }
}
