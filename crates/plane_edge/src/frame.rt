// How the whole coordinates of a map stand for its own numbers, and the limits of a map.
ghost use Rattle.std.specs.Prelude.{◌≡◌, IfOk};

use agg_base::{NoMemory, Text};
use std::alloc::Global;

/// How coordinates are written: as they are, or scaled and moved by numbers that are kept as texts.
#[derive(Drop)]
pub enum Frame {
    /// A number of the map is the coordinate itself.
    Plain,
    /// A coordinate times `sx` or `sy`, plus `tx` or `ty`, is the number that is meant, as by the
    /// transform of a quantised TopoJSON topology. Each text is the number as the map spells it.
    Scaled {
        sx: Text,
        sy: Text,
        tx: Text,
        ty: Text,
    },
}

impl Frame {
    /// The same frame again. Its one refusal is want of memory.
    pub fn copy(&self, alloc: Global) -> Result<Frame, NoMemory>
        ensures { IfOk result (λ frame. frame ≡ self.now) }
    {
        match self {
            Frame::Plain => Ok(Frame::Plain),
            Frame::Scaled { sx, sy, tx, ty } => Ok(Frame::Scaled {
                sx: sx.copy(alloc)?,
                sy: sy.copy(alloc)?,
                tx: tx.copy(alloc)?,
                ty: ty.copy(alloc)?,
            }),
        }
    }
}

/// Which limit of a map was passed.
#[derive(Clone, Copy, Debug, PartialEq, Eq)]
pub enum Limit {
    /// A coordinate is further than 2^30 from 0.
    Coordinate,
    /// There are more than 65,536 areas.
    Areas,
    /// There are more than 2,097,152 steps of non-zero length.
    Edges,
    /// A grid has more than 524,288 cells.
    Cells,
}
