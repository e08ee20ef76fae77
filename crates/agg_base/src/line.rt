// The lines of a text, by number.
ghost use Rattle.std.specs.Prelude.{◌≡◌, ◌+◌, ◌≤◌, ◌<◌, ◌^◌, length};

use crate::cut::first_line;
use std::iter::Iterator;

/// How a line ends.
#[derive(Clone, Copy, Debug, PartialEq, Eq)]
pub enum Ending {
    /// A line feed ends it.
    Lf,
    /// A carriage return and a line feed end it.
    CrLf,
    /// It is the last line, and the text ends without a line feed.
    Missing,
}

/// A line of a text.
#[derive(Clone, Copy)]
pub struct Line<'a> {
    /// Its number. The first line is line 1.
    pub number: u32,
    /// Its bytes without its ending. A carriage return without a line feed behind it belongs to the text.
    pub text: &'a [u8],
    /// How it ends.
    pub ending: Ending,
}

/// The lines that are left of a text, in order. Going on takes no memory.
#[derive(Drop)]
pub struct Lines<'a> {
    number: u32,
    rest: &'a [u8],
    ghost countable: { number + length rest.now < 2 ^ 32 },
}

impl<'a> Lines<'a> {
    ghost use Rattle.std.specs.Prelude.{◌≡◌, ◌+◌, ◌<◌, ◌^◌, length};
    ghost use Rattle.agg_base.specs.Lines.{rows_left, rows_from};

    pub(crate) fn from_first(rest: &'a [u8]) -> Lines<'a>
        requires { length rest.now + 1 < 2 ^ 32 }
        ensures { rows_left result ≡ rows_from 1 rest.now }
    {
        Lines { number: 1, rest }
    }
}

impl<'a> Iterator for Lines<'a> {
    ghost use Rattle.std.specs.Prelude.{◌≡◌};
    ghost use Rattle.std.specs.Iterator.{YieldsFirstBy, item_count};
    ghost use Rattle.agg_base.specs.Lines.{row, rows_left};

    type Item = Line<'a>;

    ghost next_gives = { YieldsFirstBy row rows_left };

    ghost remaining = { item_count rows_left };

    fn next(&mut self) -> Option<Line<'a>> {
        if self.rest.is_empty() {
            return None;
        }
        let (line, rest) = first_line(self.number, self.rest);
        self.number += 1;
        self.rest = rest;
        Some(line)
    }
}
