// The coverage of a grid.
ghost use Rattle.std.specs.Prelude.{◌≡◌, IfOk, IfErr};
ghost use Rattle.plane_edge.specs.declared.frame.Limit.TheVariants.{Areas};
ghost use Rattle.grid_reader.specs.declared.fault.GridFault.TheVariants.{Memory, Limit};
ghost use Rattle.grid_reader.specs.Areas.{AreAreas, HasManyPatches};
ghost use Rattle.grid_reader.specs.Faults.{IsPatchFault};
ghost use Rattle.grid_reader.specs.Reading.{UnlessMemory};

use crate::GridFault;
use crate::areas::areas_of;
use crate::grid::Grid;
use crate::members::members;
use crate::patches::patches;
use agg_base::limits::AREAS;
use plane_edge::{Coverage, Frame, Limit};
use std::alloc::Global;

// The coverage of a grid's patches.
pub(crate) fn coverage_of(alloc: Global, grid: &Grid, frame: Frame) -> Result<Coverage, GridFault>
    ensures areas { IfOk result (λ c. AreAreas grid.now c.areas.items) }
    ensures passed { IfOk result (λ c. c.passed ≡ 0) }
    ensures frame { IfOk result (λ c. c.frame ≡ frame) }
    ensures fault { IfErr result (λ f. UnlessMemory f (IsPatchFault grid.now f)) }
{
    let numbered = patches(alloc, grid)?;
    if numbered.count as usize > AREAS {
        return Err(GridFault::Limit(Limit::Areas));
    }
    let members = members(alloc, grid, &numbered)?;
    let areas = areas_of(alloc, grid, &members)?;
    Ok(Coverage {
        areas,
        passed: 0,
        frame,
    })
}
