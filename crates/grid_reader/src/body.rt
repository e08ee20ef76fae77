// The lines of cells.
ghost use Rattle.std.specs.Prelude.{◌≡◌, ◌≤◌, ◌<◌, ◌+◌, ◌*◌, ◌^◌, length, IfOk, IfErr};
ghost use Rattle.std.specs.List.{AllZip};
ghost use Rattle.grid_reader.specs.Numbers.{SpellsCell};
ghost use Rattle.grid_reader.specs.Cells.{body_words};
ghost use Rattle.grid_reader.specs.Body.{body_of, IsBodyFault};
ghost use Rattle.grid_reader.specs.Reading.{UnlessMemory};

use crate::GridFault;
use crate::cells::Cells;
use agg_base::{Line, Lines};
use std::alloc::Global;

// The cells that the first line and those behind it spell.
pub(crate) fn read_body(
    alloc: Global,
    columns: u32,
    total: u32,
    first: Option<Line<'_>>,
    rest: &mut Lines<'_>,
) -> Result<Vec<i32>, GridFault>
    requires some { 1 ≤ columns }
    requires room { length (body_words (body_of first rest.old)) + 2 < 2 ^ 64 }
    ensures cells { IfOk result (λ v. AllZip SpellsCell (body_words (body_of first.entry rest.old)) v.items) }
    ensures count { IfOk result (λ v. length (body_words (body_of first.entry rest.old)) ≡ total) }
    ensures fault { IfErr result (λ f. UnlessMemory f (IsBodyFault columns total (body_words (body_of first.entry rest.old)) f)) }
{
    let mut cells = Cells::start(alloc, columns, total);
    let Some(line) = first else {
        return cells.finish();
    };
    if let Err(fault) = cells.take_line(line.text) {
        return Err(fault);
    }
    if let Err(fault) = cells.take_lines(rest) {
        return Err(fault);
    }
    cells.finish()
}
