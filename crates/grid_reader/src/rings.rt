// The rings of cells.
ghost use Rattle.std.specs.Prelude.{◌≡◌, ◌<◌, ◌≤◌, IfOk, length, map, pos};
ghost use Rattle.grid_reader.specs.Areas.{place_of, corners_at, corners_of};

use crate::grid::Grid;
use agg_base::NoMemory;
use agg_base::limits::CELLS;
use plane_edge::Point;
use std::alloc::Global;

// The ring of a cell.
pub(crate) fn ring_of(alloc: Global, grid: &Grid, cell: u32) -> Result<Vec<Point>, NoMemory>
    requires { cell < length grid.now.cells }
    ensures { IfOk result (λ ring. map place_of ring.items ≡ corners_of grid.now cell) }
{
    let columns = grid.columns();
    square(alloc, cell % columns, grid.rows() - 1 - cell / columns)
}

// The ring of the unit square with this lower left corner.
fn square(alloc: Global, x: u32, y: u32) -> Result<Vec<Point>, NoMemory>
    requires x { x < CELLS }
    requires y { y < CELLS }
    ensures { IfOk result (λ ring. map place_of ring.items ≡ corners_at x y) }
{
    let corners = [
        corner(x, y),
        corner(x + 1, y),
        corner(x + 1, y + 1),
        corner(x, y + 1),
    ];
    Ok(Vec::from_slice(alloc, &corners)?)
}

// The point with these coordinates.
fn corner(x: u32, y: u32) -> Point
    requires x { x ≤ CELLS }
    requires y { y ≤ CELLS }
    ensures { place_of result ≡ (pos x, pos y) }
{
    Point {
        y: y as i32,
        x: x as i32,
    }
}
