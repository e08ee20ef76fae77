//! On which side of each edge the region is, and what follows for walks that have the region on their left.
#![tactic(auto)]

ghost use Rattle.edge_sides.specs.Laws.{SideLaw, ExitLaw};

/// Where edges meet in common ends only, each point is an end of an even number of them, and each edge goes with the region on its left, as many
/// edges start at a point as finish there.
pub fn side_law()
    ensures { SideLaw }
{}

/// A walk that takes each edge from its start to its finish, and none twice, can go on where it stands at a point at which it did not begin, or at
/// which any edge is left.
pub fn exit_law()
    ensures { ExitLaw }
{}
