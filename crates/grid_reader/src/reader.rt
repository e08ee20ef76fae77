// The reader of grids.
ghost use Rattle.std.specs.Prelude.{◌≡◌, ◌≤◌, ◌+◌, List, length, IfOk, IfErr, IfSome, IfNone};
ghost use Rattle.agg_base.specs.Lines.{rows_from};
ghost use Rattle.plane_edge.specs.Rings.{Area};
ghost use Rattle.plane_edge.specs.declared.frame.Frame.{Frame};
ghost use Rattle.grid_reader.specs.GridTexts.{SpellsGrid, IsGridText, IsFaultOf, IsFirstFault};
ghost use Rattle.grid_reader.specs.Outcomes.{Reads, FailsBy};
ghost use Rattle.grid_reader.specs.declared.fault.GridFault.{GridFault};

use crate::GridFault;
use crate::body::read_body;
use crate::coverage::coverage_of;
use crate::draft::Draft;
use crate::grid::Grid;
use crate::header::read_header;
use agg_base::limits::TEXT_BYTES;
use agg_base::{Line, lines};
use plane_edge::{Coverage, Frame};
use std::alloc::Global;

/// The coverage that a text spells as an ESRI ASCII grid.
///
/// The header is the lines at the start whose first word begins with an ASCII letter; lines of blanks among them are passed over. Each has
/// two words, parted by spaces and tabs: a name, in upper or lower case, and its value. `ncols` and `nrows` have one or more digits, for 1 to
/// 524,288. `xllcorner`, `yllcorner` and `cellsize` have a number of JSON of at most 100 bytes, `cellsize` one that does not begin with a
/// minus. `nodata_value`, which may be left out for -9999, has a whole number as a cell has. Each name comes once, in any order. The names
/// `xllcenter` and `yllcenter`, which place a grid by the centre of a cell, are refused, and so is every other one, as `dx` and `dy`.
///
/// The words behind the header, parted by spaces, tabs, line feeds and carriage returns, are the cells, row by row from the top and each row from
/// the left: an optional minus, digits, and perhaps a point with zeros behind it, at most 2,147,483,647 from 0. There are columns times rows of
/// them, 524,288 at most; lines need not be rows.
///
/// An area is a patch: cells that have one value, that of no data apart, and hang together along common sides. Areas are ordered by their
/// first cells. The class is the decimal spelling of the value, and the steps are the four sides of each cell. The cell in a column (from the
/// left) and a row (from below, both from 0) goes from (column, row) to (column + 1, row + 1), and the frame scales by `cellsize` and
/// moves by `xllcorner` and `yllcorner`, with the same characters. None is passed over.
///
/// A fault is that of the first rule that is broken: `Centred` or `Header` at the first line of the header that is not right; `Header` at
/// the line that ends the header, or at the number of lines plus 1, where a name is missing; `Limit(Cells)`; `Cell` at the first word, among as
/// many as there are cells, that spells none; `Count` of the words; `Limit(Areas)` for more than 65,536 patches.
pub fn read(alloc: Global, bytes: &[u8]) -> Result<Coverage, GridFault>
    requires { length bytes.now ≤ TEXT_BYTES }
    ensures found { IfOk result (λ c. SpellsGrid bytes.now c.areas.items c.frame) }
    ensures passed { IfOk result (λ c. c.passed ≡ 0) }
    ensures fault { IfErr result (λ f. IsFaultOf bytes.now f) }
    ensures spelled { (areas : List Area) (frame : Frame) → SpellsGrid bytes.now areas frame → Reads areas frame result }
    ensures faulty { (f : GridFault) → IsFirstFault bytes.now f → FailsBy f result }
{
    let (grid, frame) = read_grid(alloc, bytes)?;
    coverage_of(alloc, &grid, frame)
}

// The cells that a text spells, and where they lie.
fn read_grid(alloc: Global, bytes: &[u8]) -> Result<(Grid, Frame), GridFault>
    requires { length bytes.now ≤ TEXT_BYTES }
    ensures found { IfOk result (λ p. IsGridText bytes.now p.0 p.1) }
    ensures fault { IfErr result (λ f. IsFaultOf bytes.now f) }
{
    let mut draft = Draft::start();
    let mut rest = lines(bytes);
    let first = read_header(&mut draft, alloc, &mut rest)?;
    let number = end_number(first, bytes);
    let whole = draft.finish(alloc, number)?;
    let total = whole.columns * whole.rows;
    let cells = read_body(alloc, whole.columns, total, first, &mut rest)?;
    let grid = Grid::of(whole.columns, whole.rows, whole.nodata, cells);
    Ok((grid, whole.frame))
}

// The number of the line that ends the header, or of the line behind all lines where there is none.
fn end_number(first: Option<Line<'_>>, bytes: &[u8]) -> u32
    requires { length bytes.now ≤ TEXT_BYTES }
    ensures some { IfSome first.entry (λ line. result ≡ line.number) }
    ensures none { IfNone first.entry (result ≡ length (rows_from 1 bytes.now) + 1) }
{
    match first {
        Some(line) => line.number,
        None => line_count(bytes) + 1,
    }
}

// How many lines a text has.
fn line_count(bytes: &[u8]) -> u32
    requires { length bytes.now ≤ TEXT_BYTES }
    ensures count { result ≡ length (rows_from 1 bytes.now) }
    ensures few { result ≤ length bytes.now + 1 }
{
    let mut count = 0;
    let mut rest = lines(bytes);
    while let Some(_line) = rest.next() {
        count += 1;
    }
    count
}
