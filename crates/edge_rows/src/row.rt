// Pieces between two heights.
ghost use Rattle.plane_edge.specs.Coordinate.{IsCoordinate};
ghost use Rattle.edge_rows.specs.Beside.{IsRow};

use crate::piece::Piece;

/// Pieces between the same two heights, from left to right.
#[derive(Drop)]
pub struct Row {
    /// The pieces.
    pub pieces: Vec<Piece>,
    /// The last of them.
    pub last: Piece,
    /// The height of their upper ends or above.
    pub top: i32,
    ghost is_row: { IsRow pieces.items last top },
    ghost top_in: { IsCoordinate top },
}
