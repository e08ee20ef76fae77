// What a region holds.
ghost use Rattle.region_edges.specs.PointSets.{DrawnLaw, PointSetsLaw};

/// A point is inside the border edges of a region exactly where it is inside one of the region's areas, if no two areas share a point.
pub fn point_sets_law()
    ensures { PointSetsLaw }
{}

/// The same holds of any list of steps in which the border edges of the region, and no other edges, stand an odd number of times.
pub fn drawn_law()
    ensures { DrawnLaw }
{}
