// Edges between points.
ghost use Rattle.std.specs.Prelude.{IsTrue};
ghost use Rattle.plane_edge.specs.Order.{is_below};

use crate::point::Point;

/// A pair of different points, the lesser one first. Edges are ordered by the low end, then by the
/// high end.
#[derive(Clone, Copy, Debug, PartialEq, Eq, PartialOrd, Ord, Hash)]
pub struct Edge {
    /// The lesser end.
    pub low: Point,
    /// The greater end.
    pub high: Point,
    ghost rising: { IsTrue (is_below low high) },
}

impl Edge {
    ghost use Rattle.std.specs.Prelude.{◌≡◌};

    /// The lesser end.
    pub fn low(&self) -> Point
        ensures { result ≡ self.now.low }
    {
        self.low
    }

    /// The greater end.
    pub fn high(&self) -> Point
        ensures { result ≡ self.now.high }
    {
        self.high
    }
}
