// Edges that have a direction.
ghost use Rattle.std.specs.Prelude.{◌≡◌};
ghost use Rattle.plane_edge.specs.Order.{is_below};
ghost use Rattle.region_rings.specs.Turning.{parts_of};
ghost use Rattle.region_rings.specs.Ways.{other_end_of, tail_of, is_from, is_taken_before};

use crate::heading::Heading;
use crate::turning::{heading, is_first, is_sooner};
use plane_edge::{Edge, Point};

/// An edge, and whether the region is on its left, seen from its low end to its high end. The way goes along the edge with the region on the
/// left.
#[derive(Clone, Copy, Debug)]
pub struct Way {
    pub edge: Edge,
    pub is_leftward: bool,
}

/// The end of the edge that is not the point.
pub fn other_end(edge: &Edge, at: &Point) -> Point
    ensures { result ≡ other_end_of edge.now at.now }
{
    if edge.low == *at { edge.high } else { edge.low }
}

// Whether the first point is less than the second.
fn is_less(one: &Point, other: &Point) -> bool
    ensures { result ≡ is_below one.now other.now }
{
    one < other
}

impl Way {
    /// The end at which the way begins.
    pub fn tail(&self) -> Point
        ensures { result ≡ tail_of self.now }
    {
        if self.is_leftward {
            self.edge.low
        } else {
            self.edge.high
        }
    }

    /// Whether the way leads away from the point.
    pub fn is_from(&self, at: &Point) -> bool
        ensures { result ≡ is_from self.now at.now }
    {
        self.tail() == *at
    }

    /// Whether the way begins at a lesser point.
    pub fn is_below(&self, at: &Point) -> bool
        ensures { result ≡ is_below (tail_of self.now) at.now }
    {
        is_less(&self.tail(), at)
    }

    /// Whether the way begins at a greater point.
    pub fn is_above(&self, at: &Point) -> bool
        ensures { result ≡ is_below at.now (tail_of self.now) }
    {
        is_less(at, &self.tail())
    }

    /// Whether at the point this way is taken before the other: one that leads away before one that does not, and of two alike the one that a clockwise
    /// turn from `back` meets first.
    pub fn is_before(&self, other: &Way, at: &Point, back: &Heading) -> bool
        ensures { result ≡ is_taken_before at.now (parts_of back.now) self.now other.now }
    {
        let leads = self.is_from(at);
        let other_leads = other.is_from(at);
        let aim = heading(at, &other_end(&self.edge, at));
        let other_aim = heading(at, &other_end(&other.edge, at));
        let is_sooner = is_sooner(back, &aim, &other_aim);
        is_first(leads, other_leads, is_sooner)
    }
}
