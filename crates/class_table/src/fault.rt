// Why a text is no class table.
ghost use Rattle.class_table.specs.declared.fault.TableFault.TheVariants.{Line, Memory};
ghost use Rattle.std.specs.Prelude.{◌≡◌};

use agg_base::NoMemory;
use std::alloc::{AllocError, AllocFailed};
use thiserror::Error;

/// The rule that a line of a class table breaks.
#[derive(Clone, Copy, Debug, PartialEq, Eq)]
pub enum Why {
    /// The first line that counts is not `classes 1`, or there is none.
    Version,
    /// The first word is not one that is due, the number of words is wrong, or the line stands behind the last row.
    Word,
    /// A number is not made of one to 31 digits, or it is outside its range.
    Number,
    /// The name is not 1 to 100 bytes of UTF-8 without bytes below 32.
    Name,
    /// The row has another number of distances than there are classes.
    Count,
    /// The distance from a class to itself is not 0.
    Diagonal,
    /// The text ends before the last row.
    End,
}

/// Why a text is no class table: the first line that breaks a rule, and the first rule that it breaks.
#[derive(Clone, Copy, Debug, PartialEq, Eq, Error)]
pub enum TableFault {
    /// A line breaks a rule. Where the text ends too early it is the number of lines plus 1.
    #[error("line {number} of the class table breaks a rule: {why:?}")]
    Line {
        /// The line's number; the first line is line 1.
        number: u32,
        /// The rule.
        why: Why,
    },
    /// A `class` line has the name of an earlier class.
    #[error("line {line} of the class table repeats a name")]
    RepeatedClass {
        /// The line's number.
        line: u32,
    },
    /// It is a 65th `class` line.
    #[error("line {line} of the class table is one class too many")]
    Limit {
        /// The line's number.
        line: u32,
    },
    /// Out of memory. No other cause has this answer.
    #[error("out of memory")]
    Memory,
}

impl TableFault {
    // The line with that number breaks a rule.
    pub(crate) fn at(number: u32, why: Why) -> TableFault
        ensures { result ≡ Line number why }
    {
        TableFault::Line { number, why }
    }
}

impl From<NoMemory> for TableFault {
    ghost from_gives = { λ _ fault. fault ≡ Memory };

    fn from(_: NoMemory) -> TableFault {
        TableFault::Memory
    }
}

impl From<AllocError> for TableFault {
    ghost from_gives = { λ _ fault. fault ≡ Memory };

    fn from(_: AllocError) -> TableFault {
        TableFault::Memory
    }
}

impl<T: Drop> From<AllocFailed<T>> for TableFault {
    ghost from_gives = { λ _ fault. fault ≡ Memory };

    fn from(_: AllocFailed<T>) -> TableFault {
        TableFault::Memory
    }
}
