// Parts of edges between two heights.
ghost use Rattle.std.specs.Prelude.{◌<ℤ◌};
ghost use Rattle.plane_edge.specs.Coordinate.{IsCoordinate};
ghost use Rattle.plane_strip.specs.Strip.{Spans};

use plane_edge::Edge;

/// The part of an edge from one height to a greater one, both of the edge.
#[derive(Clone, Copy, Debug)]
pub struct Piece {
    /// The edge.
    pub edge: Edge,
    /// From this height on.
    pub low: i32,
    /// Up to this height, which does not count.
    pub high: i32,
    /// How far up in the layout it stands: pieces of one level do not begin within another one.
    pub level: u32,
    ghost rising: { low <ℤ high },
    ghost spans: { Spans low high edge },
    ghost low_in: { IsCoordinate low },
    ghost high_in: { IsCoordinate high },
}
