// The middle of an edge.
ghost use Rattle.std.specs.Prelude.{◌≡◌};
ghost use Rattle.plane_edge.specs.Middle.{middle_of};
ghost use Rattle.plane_edge.specs.Plane.{IsBounded};

use crate::edge::Edge;
use crate::spot::Spot;
use crate::wide::sum;

impl Edge {
    /// The point half way between the ends.
    pub fn middle(&self) -> Spot
        ensures value { result ≡ middle_of self.now }
        ensures bounded { IsBounded result }
    {
        let x = sum(self.low.x, self.high.x);
        let y = sum(self.low.y, self.high.y);
        Spot { x, y, m: 2 }
    }
}
