ghost use Rattle.std.specs.Prelude.{◌<ℤ◌, IsTrue};
ghost use Rattle.coverage_check.specs.Areas.{do_areas_rise};

use plane_edge::Edge;

/// An edge that is not level, and the one or two areas in which it is odd, the lesser first.
#[derive(Clone, Copy, Debug)]
pub struct Border {
    pub edge: Edge,
    pub first: u32,
    pub second: Option<u32>,
    ghost steep: { edge.low.y <ℤ edge.high.y },
    ghost areas_rise: { IsTrue (do_areas_rise first second) },
}
