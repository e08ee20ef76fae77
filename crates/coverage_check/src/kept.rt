// The areas that count.
use agg_base::Text;
use plane_edge::Edge;
use std::marker::Model;

/// The class and the odd edges of an area. Each point is an end of an even number of them.
#[derive(Drop)]
pub struct OddArea {
    class: Text,
    odd_edges: Vec<Edge>,
}

impl Model for OddArea {
    ghost use Rattle.coverage_check.specs.Kept.{OddArea};

    ghost Value = { OddArea };

    ghost use Rattle.plane_edge.specs.Edges.{HaveEvenEnds, IsRisingEdges};

    ghost view = { λ a. record { class = a.class; odd_edges = a.odd_edges.items } };

    ghost invariant = { λ a. IsRisingEdges a.odd_edges.items × HaveEvenEnds a.odd_edges.items };
}

ghost use Rattle.std.specs.Prelude.{◌≡◌, All, IfOk};
ghost use Rattle.coverage_check.specs.Parts.{IsOddPart};
ghost use Rattle.plane_edge.specs.Edges.{HaveEvenEnds, IsRisingEdges};
ghost use Rattle.coverage_check.specs.Kept.{odd_part, kept_of, has_edge};

use agg_base::NoMemory;
use plane_edge::{Area, odd};
use std::alloc::Global;

impl OddArea {
    // The area with its odd edges.
    fn of(alloc: Global, area: &Area) -> Result<OddArea, NoMemory>
        ensures { IfOk result (λ kept. kept ≡ odd_part area.now) }
    {
        let odd_edges = odd(alloc, area)?;
        let class = area.class().copy(alloc)?;
        Ok(OddArea { class, odd_edges })
    }

    /// The class text.
    pub fn class(&self) -> &Text
        ensures { result.now ≡ self.now.class }
    {
        &self.class
    }

    /// The odd edges, in rising order.
    pub fn odd_edges(&self) -> &[Edge]
        ensures value { result.now ≡ self.now.odd_edges }
        ensures rising { IsRisingEdges self.now.odd_edges }
        ensures even { HaveEvenEnds self.now.odd_edges }
    {
        &self.odd_edges
    }

    // Whether there is an odd edge.
    fn has_edge(&self) -> bool
        ensures value { result ≡ has_edge self.now }
        ensures rising { IsRisingEdges self.now.odd_edges }
        ensures even { HaveEvenEnds self.now.odd_edges }
    {
        !self.odd_edges.is_empty()
    }
}

/// The areas that have an odd edge, in their order.
pub fn keep(alloc: Global, areas: &[Area]) -> Result<Vec<OddArea>, NoMemory>
    ensures value { IfOk result (λ kept. kept.items ≡ kept_of areas.now) }
    ensures parts { IfOk result (λ kept. All IsOddPart kept.items) }
{
    let mut kept = Vec::new(alloc);
    for area in areas {
        let odd = OddArea::of(alloc, area)?;
        if odd.has_edge() {
            kept.push(odd)?;
        }
    }
    Ok(kept)
}
