// The header of a grid.
ghost use Rattle.std.specs.Prelude.{◌≡◌, ◌∷◌, [], List, IfOk, IfErr, MatchOption, slice_index};
ghost use Rattle.std.specs.Char.{is_ascii_alphabetic};
ghost use Rattle.agg_base.specs.Lines.{Row, row, rows_left};
ghost use Rattle.grid_reader.specs.Reading.{EndsHeader, FailsHeader, UnlessMemory};

use crate::GridFault;
use crate::draft::Draft;
use agg_base::{Line, Lines};
use std::alloc::Global;
use text_words::Parts;

// Takes the lines of the header, and gives the first line of cells.
pub(crate) fn read_header<'a>(
    draft: &mut Draft,
    alloc: Global,
    rest: &mut Lines<'a>,
) -> Result<Option<Line<'a>>, GridFault>
    ensures ended { IfOk result (λ first. MatchOption first (EndsHeader draft.old (rows_left rest.old) draft.new []) (λ line. EndsHeader draft.old (rows_left rest.old) draft.new (row line ∷ rows_left rest.new))) }
    ensures fault { IfErr result (λ fault. UnlessMemory fault (FailsHeader draft.old (rows_left rest.old) fault)) }
{
    while let Some(line) = rest.next() {
        let parts = Parts::of(line.text);
        if parts.is_empty() {
            continue;
        }
        if !has_letter_first(parts.at(0)) {
            return Ok(Some(line));
        }
        draft.take(alloc, line.number, &parts)?;
    }
    Ok(None)
}

// Whether a word begins with an ASCII letter.
fn has_letter_first(word: &[u8]) -> bool
    ensures { result ≡ is_ascii_alphabetic (slice_index word.now 0) }
{
    match word {
        [first, ..] => first.is_ascii_alphabetic(),
        [] => false,
    }
}
