// The written map.
ghost use Rattle.std.specs.Prelude.{◌≡◌, IfOk};
ghost use Rattle.coverage_check.specs.Kept.{odds_of};
ghost use Rattle.map_drawing.specs.Drawn.{IsDrawnMap, IsDrawable};

use agg_base::{NoMemory, Text};
use agg_model::Grouping;
use arc_dissolve::dissolve;
use coverage_check::Checked;
use std::alloc::Global;
use topo_writer::text;

/// The map of a grouping as a text of TopoJSON, whose object `regions` has one geometry for each region, in order.
///
/// A region is drawn as the exact union of its areas: for every rational point, the drawn region holds it exactly where an area of the region
/// does. At each step of its rings, as the text tells them, the region is on the left. Each border stands once, and is used by the regions on
/// both of its sides. The frame has the same characters as that of the map, and each region has the name of its class as its property `class`.
/// Its one refusal is want of memory.
pub fn draw(
    alloc: Global,
    checked: &Checked,
    grouping: &Grouping,
    names: &[Text],
) -> Result<Vec<u8>, NoMemory>
    requires drawable { IsDrawable checked.now grouping.now names.now }
    ensures { IfOk result (λ text. IsDrawnMap (odds_of checked.now.areas) grouping.now names.now checked.now.frame text.items) }
{
    let regions = dissolve(alloc, checked, grouping, names)?;
    let frame = checked.frame();
    let map = text(alloc, &regions, frame)?;
    Ok(map)
}
