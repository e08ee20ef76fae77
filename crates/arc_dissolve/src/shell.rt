// Shells.
ghost use Rattle.arc_dissolve.specs.Extents.{IsExtentOf};

use crate::extent::Extent;
use edge_rows::EdgeRows;

/// A ring that has its inside on its left.
#[derive(Drop)]
pub struct Shell {
    /// Its place among the rings.
    pub place: usize,
    /// The number of its first arc.
    pub first: usize,
    /// Twice its area.
    pub sum: i128,
    /// Its edges.
    pub rows: EdgeRows,
    /// A rectangle round all that is inside it.
    pub extent: Extent,
    ghost is_extent: { IsExtentOf rows extent },
}
