// Coverages.
ghost use Rattle.std.specs.Prelude.{◌≤◌, length};
ghost use Rattle.agg_base.specs.declared.limits.TheConstants.{AREAS, STEPS, TEXT_BYTES};
ghost use Rattle.plane_edge.specs.Rings.{step_count};

use crate::area::Area;
use crate::frame::Frame;

/// The areas of a map in their order, how many further ones were passed over, and the frame. There
/// are at most `AREAS` areas with at most `STEPS` steps together, and at most `TEXT_BYTES` were
/// passed over (`agg_base::limits`).
#[derive(Drop)]
pub struct Coverage {
    /// The areas, in the order of the map.
    pub areas: Vec<Area>,
    /// How many members of the map have no area and were passed over.
    pub passed: u32,
    /// How the map writes its coordinates.
    pub frame: Frame,
    ghost few_areas: { length areas.items ≤ AREAS },
    ghost few_steps: { step_count areas.items ≤ STEPS },
    ghost few_passed: { passed ≤ TEXT_BYTES },
}
