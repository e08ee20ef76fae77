// The areas of the patches of a grid.
ghost use Rattle.std.specs.Prelude.{◌≡◌, ◌<◌, ◌≤◌, ◌*◌, ℕ, IfOk, IfErr, length, map, All, sum_by};
ghost use Rattle.std.specs.Fmt.{signed_decimal};
ghost use Rattle.plane_edge.specs.Rings.{step_count};
ghost use Rattle.grid_reader.specs.Grid.{value_at};
ghost use Rattle.grid_reader.specs.Areas.{AreAreas, area_at, place_of, corners_of};
ghost use Rattle.grid_reader.specs.Members.{IsAreaOf, list_at};
ghost use Rattle.agg_base.specs.Lists.{lists_of};

use crate::grid::Grid;
use crate::rings::ring_of;
use agg_base::{NoMemory, Text};
use plane_edge::{Area, Point};
use std::alloc::Global;

// The areas of these lists of cells.
pub(crate) fn areas_of(
    alloc: Global,
    grid: &Grid,
    members: &[Vec<u32>],
) -> Result<Vec<Area>, NoMemory>
    requires filled { (p : ℕ) → p < length members.now → 0 < length (list_at (lists_of members.now) p) }
    requires inside { (p : ℕ) → p < length members.now → All (λ i. i < length grid.now.cells) (list_at (lists_of members.now) p) }
    ensures long { IfOk result (λ areas. length areas.items ≡ length members.now) }
    ensures each { IfOk result (λ areas. (p : ℕ) → p < length members.now → IsAreaOf grid.now (list_at (lists_of members.now) p) (area_at areas.items p)) }
    ensures few { IfOk result (λ areas. step_count areas.items ≤ 4 * sum_by (λ cells. length cells) (lists_of members.now)) }
{
    let mut areas = Vec::with_capacity(alloc, members.len())?;
    for cells in members {
        areas.push(area_of(alloc, grid, cells)?)?;
    }
    Ok(areas)
}

// The area of some cells.
fn area_of(alloc: Global, grid: &Grid, cells: &[u32]) -> Result<Area, NoMemory>
    requires filled { 0 < length cells.now }
    requires inside { All (λ i. i < length grid.now.cells) cells.now }
    ensures area { IfOk result (λ area. IsAreaOf grid.now cells.now area) }
    ensures few { IfOk result (λ area. length area.steps ≤ 4 * length cells.now) }
{
    let class = class_of(alloc, grid, cells[0])?;
    let rings = rings_of(alloc, grid, cells)?;
    Area::of_rings(alloc, class, &rings)
}

// The decimal spelling of a cell's value.
fn class_of(alloc: Global, grid: &Grid, cell: u32) -> Result<Text, NoMemory>
    requires { cell < length grid.now.cells }
    ensures { IfOk result (λ text. text ≡ signed_decimal (value_at grid.now cell)) }
{
    decimal(alloc, grid.value(cell))
}

// The decimal spelling of a value.
fn decimal(alloc: Global, value: i32) -> Result<Text, NoMemory>
    ensures { IfOk result (λ text. text ≡ signed_decimal value) }
{
    let text = format!(in alloc; "{value}")?;
    Text::of(alloc, text.as_str())
}

// The rings of some cells.
fn rings_of(alloc: Global, grid: &Grid, cells: &[u32]) -> Result<Vec<Vec<Point>>, NoMemory>
    requires { All (λ i. i < length grid.now.cells) cells.now }
    ensures { IfOk result (λ rings. map (λ ring. map place_of ring.items) rings.items ≡ map (λ i. corners_of grid.now i) cells.now) }
{
    let mut rings = Vec::with_capacity(alloc, cells.len())?;
    for cell in cells {
        rings.push(ring_of(alloc, grid, *cell)?)?;
    }
    Ok(rings)
}
