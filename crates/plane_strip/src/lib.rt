//! The strips between neighbouring heights of a planar set of edges.
#![tactic(auto)]

ghost use Rattle.plane_strip.specs.Laws.{MidLineLaw};

/// Some spot is inside two lists of edges only where one on a mid-line is: whether two lists have a common inner point is decided in the middle of the
/// strips between neighbouring heights of ends.
pub fn mid_line_law()
    ensures { MidLineLaw }
{}
