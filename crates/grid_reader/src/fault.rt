// Why a text is no grid.
ghost use Rattle.std.specs.Prelude.{◌≡◌};
ghost use Rattle.grid_reader.specs.declared.fault.GridFault.TheVariants.{Memory};

use agg_base::NoMemory;
use plane_edge::Limit;
use std::alloc::{AllocError, AllocFailed};
use thiserror::Error;

/// Why a text is no grid: the first rule that it breaks.
#[derive(Clone, Copy, Debug, PartialEq, Eq, Error)]
pub enum GridFault {
    /// A line of the header breaks a rule, or the header lacks a word at the line that ends it, which is the number of lines plus 1 where
    /// no line ends it.
    #[error("line {line} of the grid's header breaks a rule")]
    Header {
        /// The line's number; the first line is line 1.
        line: u32,
    },
    /// A line of the header places the grid by the centre of a cell, which is not read.
    #[error("line {line} of the grid places it by the centre of a cell")]
    Centred {
        /// The line's number; the first line is line 1.
        line: u32,
    },
    /// A cell is no whole number, or it is further than 2,147,483,647 from 0.
    #[error("the cell in row {row}, column {column} is no whole number within its limit")]
    Cell {
        /// The cell's row; the top row is row 0.
        row: u32,
        /// The cell's column; the left column is column 0.
        column: u32,
    },
    /// The number of words behind the header is not the number of columns times the number of rows.
    #[error("the grid has {found} cells, which is not columns times rows")]
    Count {
        /// How many words there are behind the header.
        found: u64,
    },
    /// The grid has more than 524,288 cells, or more than 65,536 patches.
    #[error("the grid passes a limit: {0:?}")]
    Limit(Limit),
    /// Out of memory. No other cause has this answer.
    #[error("out of memory")]
    Memory,
}

impl From<NoMemory> for GridFault {
    ghost from_gives = { λ _ fault. fault ≡ Memory };

    fn from(_: NoMemory) -> GridFault {
        GridFault::Memory
    }
}

impl From<AllocError> for GridFault {
    ghost from_gives = { λ _ fault. fault ≡ Memory };

    fn from(_: AllocError) -> GridFault {
        GridFault::Memory
    }
}

impl<T: Drop> From<AllocFailed<T>> for GridFault {
    ghost from_gives = { λ _ fault. fault ≡ Memory };

    fn from(_: AllocFailed<T>) -> GridFault {
        GridFault::Memory
    }
}
