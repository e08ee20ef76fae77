// A grid of cells.
use agg_base::limits::CELLS;
use std::marker::Model;

// Cells row by row, the top row first, and the value that stands for no data.
#[derive(Drop)]
pub(crate) struct Grid {
    columns: u32,
    rows: u32,
    nodata: i32,
    cells: Vec<i32>,
}

impl Model for Grid {
    ghost use Rattle.grid_reader.specs.Grid.{Grid, IsGrid};

    ghost Value = { Grid };

    ghost view = { λ g. record { columns = g.columns; rows = g.rows; nodata = g.nodata; cells = g.cells.items } };

    ghost invariant = { λ g. IsGrid (record { columns = g.columns; rows = g.rows; nodata = g.nodata; cells = g.cells.items }) };
}

ghost use Rattle.std.specs.Prelude.{◌≡◌, ◌<◌, ◌≤◌, length};
ghost use Rattle.grid_reader.specs.Grid.{IsGrid, value_at};

impl Grid {
    // The grid of these cells.
    pub(crate) fn of(columns: u32, rows: u32, nodata: i32, cells: Vec<i32>) -> Grid
        requires { IsGrid (record { columns = columns; rows = rows; nodata = nodata; cells = cells.items }) }
        ensures { result ≡ record { columns = columns; rows = rows; nodata = nodata; cells = cells.items } }
    {
        Grid {
            columns,
            rows,
            nodata,
            cells,
        }
    }

    // How many columns there are.
    pub(crate) fn columns(&self) -> u32
        ensures value { result ≡ self.now.columns }
        ensures rules { IsGrid self.now }
    {
        self.columns
    }

    // How many rows there are.
    pub(crate) fn rows(&self) -> u32
        ensures { result ≡ self.now.rows }
    {
        self.rows
    }

    // The value that stands for no data.
    pub(crate) fn nodata(&self) -> i32
        ensures { result ≡ self.now.nodata }
    {
        self.nodata
    }

    // How many cells there are.
    pub(crate) fn count(&self) -> u32
        ensures value { result ≡ length self.now.cells }
        ensures few { result ≤ CELLS }
    {
        self.cells.len() as u32
    }

    // The value of a cell.
    pub(crate) fn value(&self, at: u32) -> i32
        requires { at < length self.now.cells }
        ensures { result ≡ value_at self.now at }
    {
        self.cells[at as usize]
    }
}
